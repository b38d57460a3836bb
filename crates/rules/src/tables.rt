ghost use Rattle.std.specs.Prelude.{◌≡◌};
ghost use Rattle.rules.specs.Times.{end_past};

use crate::times::Moment;

// The rows of the three tables. They lie in lent slices; the sheet counts the slots that are used.

// How far a row's move to the cold store has come, with the tag of the move.
#[derive(Clone, Copy, Debug, PartialEq, Eq)]
pub enum MoveMark {
    Unmoved,
    Chosen(u32),
    Copied(u32),
}

// A version of a key's row in the hot table. With no end it is open.
#[derive(Clone, Copy, Debug, PartialEq, Eq)]
pub struct HotRow<K, R> {
    pub key: K,
    pub row: R,
    pub begin: Moment,
    pub end: Option<Moment>,
    pub mark: MoveMark,
}

impl<K, R> HotRow<K, R> {
    // Whether it ended at a stamp at or below the horizon.
    pub fn is_past(&self, horizon: u32) -> bool
        ensures { result ≡ end_past self.now.end horizon }
    {
        self.end.is_some_and(|end| end.is_past(horizon))
    }
}

// What a notice says of the cold entry with its key and tag.
#[derive(Clone, Copy, Debug, PartialEq, Eq)]
pub enum Kind {
    // a row is on its way there: nobody sees it
    N,
    // it begins at the notice's begin, and is not ended
    B,
    // it begins at 1, and ends at the notice's end
    E,
    // it begins at the notice's begin, and ends at its end
    BE,
    // it was emptied out: nobody sees it
    X,
}

// A notice about a cold entry. A begin that is not used is 1, an end that is not used is open. Both stand beside the kind and
// not in it, since they stay as they were when a notice is emptied or settled.
#[derive(Clone, Copy, Debug, PartialEq, Eq)]
pub struct Notice<K> {
    pub key: K,
    pub tag: u32,
    pub kind: Kind,
    pub begin: u32,
    pub end: Option<Moment>,
}

// That a checked session looked at a key.
#[derive(Clone, Copy, Debug, PartialEq, Eq)]
pub struct Line<K> {
    pub session: u32,
    pub key: K,
}
