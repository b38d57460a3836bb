ghost use Rattle.std.specs.Prelude.{◌≡◌, ◌≤◌, nat_le};

#[derive(Clone, Copy, Debug, PartialEq, Eq)]
pub enum Mode {
    Plain,
    Checked,
}

// What an open session was begun with.
#[derive(Clone, Copy, Debug, PartialEq, Eq)]
pub struct Reading {
    pub mode: Mode,
    pub time: u32,
}

// A session entry: closed, or open with a mode and a read time.
#[derive(Clone, Copy, Debug, PartialEq, Eq)]
pub struct Session {
    pub reading: Option<Reading>,
}

// How much of a lent table is used: its first `used` slots are its list, and what lies past them means nothing. There is no
// heap: the tables are lent one by one, as slices of the opening's length, so the counts of their lists stand here.
#[derive(Clone, Copy, Debug, PartialEq, Eq)]
pub struct Room {
    pub length: usize,
    pub used: usize,
    ghost fits: { used ≤ length },
}

impl Room {
    // A table of the length, with nothing in its list.
    pub fn empty(length: usize) -> Room
        ensures length { result.length ≡ length }
        ensures used { result.used ≡ 0 }
    {
        Room { length, used: 0 }
    }

    // Whether no slot is left.
    pub fn is_full(&self) -> bool
        ensures { result ≡ nat_le self.now.length self.now.used }
    {
        self.length <= self.used
    }
}

// The sheet of a store. It has memory for 64 sessions, and for no more.
#[derive(Drop)]
pub struct Sheet {
    pub sessions: [Session; 64],
    pub clock: u32,
    pub last_tag: u32,
    // the finds of the latest read, put or drop
    pub finds: u32,
    pub hot: Room,
    pub memo: Room,
    pub ledger: Room,
}
