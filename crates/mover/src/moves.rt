ghost use Rattle.std.specs.Prelude.{◌≡◌};

use rules::answers::Refusal;
use std::marker::PhantomData;

// How far a move has come, as its type says: its row is chosen.
pub struct Chosen;

// How far a move has come, as its type says: its row is copied into the cold store.
pub struct Copied;

// A move is one value from choose to its end: only choose makes a `Move<Chosen>`, and only copy a `Move<Copied>`. It can be
// neither cloned nor let go, so that each is spent once: by a settle or a give-up that is served, or by refusal 14.
pub struct Move<S> {
    pub(crate) tag: u32,
    pub(crate) stage: PhantomData<S>,
}

impl<S> Move<S> {
    // The tag of the move.
    pub fn tag(&self) -> u32
        ensures { result ≡ self.now.tag }
    {
        self.tag
    }
}

// Why a call on a move stopped: the move is over, and spent, or the refusal hands it back as it was.
pub enum Stopped<M> {
    Over(Refusal),
    Kept(M, Refusal),
}
