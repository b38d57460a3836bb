ghost use Rattle.std.specs.Prelude.{◌≡◌};
ghost use Rattle.rules.specs.Notices.{kind_sees, becomes, due_kind};
ghost use Rattle.rules.specs.Looking.{is_for};

use crate::tables::{Kind, Notice};
use crate::times::{Moment, Reader};
use keys::key::Key;

// What happens to a cold entry, and so to its notice.
#[derive(Clone, Copy, Debug, PartialEq, Eq)]
pub enum NoticeEvent {
    // the move's row leaves the hot table
    Settle,
    // a session ends the entry
    Ending,
    // the session that ended it is undone
    Abandon,
    // the sweep takes the notice up
    Empty,
}

impl Kind {
    // What a notice becomes; nothing where it is taken out. Kind and event are matched together, as the table of the rules has them.
    pub fn after(self, event: NoticeEvent) -> Option<Kind>
        ensures { result ≡ becomes self event }
    {
        match (self, event) {
            (Kind::N, NoticeEvent::Settle) => Some(Kind::B),
            (Kind::B, NoticeEvent::Ending) => Some(Kind::BE),
            (Kind::BE, NoticeEvent::Abandon) => Some(Kind::B),
            (Kind::E, NoticeEvent::Abandon) => None,
            (Kind::N | Kind::E | Kind::BE, NoticeEvent::Empty) => Some(Kind::X),
            (Kind::B | Kind::X, NoticeEvent::Empty) => None,
            (unchanged, _) => Some(unchanged),
        }
    }
}

impl<K> Notice<K> {
    // Whether the reader sees the cold entry.
    pub fn is_seen(&self, reader: Reader) -> bool
        ensures { result ≡ kind_sees self.now.kind self.now.begin self.now.end reader.session reader.time }
    {
        match self.kind {
            Kind::N => false,
            Kind::B => reader.sees(Moment::Stamp(self.begin), None),
            Kind::E => reader.sees(Moment::Stamp(1), self.end),
            Kind::BE => reader.sees(Moment::Stamp(self.begin), self.end),
            Kind::X => false,
        }
    }

    // Whether the notice is due, where `borne` tells whether a hot row bears its tag.
    pub fn is_due(&self, horizon: u32, borne: bool) -> bool
        ensures { result ≡ due_kind self.now.kind self.now.begin self.now.end horizon borne }
    {
        match self.kind {
            Kind::N => !borne,
            Kind::B => self.begin <= horizon,
            Kind::E | Kind::BE => self.end.is_some_and(|end| end.is_past(horizon)),
            Kind::X => true,
        }
    }
}

impl<K: Key> Notice<K> {
    // Whether it is that of a cold entry: with its key number and tag.
    pub fn is_for(&self, number: u64, tag: u32) -> bool
        ensures { result ≡ is_for K.Key.number number tag self.now }
    {
        self.key.number() == number && self.tag == tag
    }
}
