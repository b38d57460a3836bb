// The last stamp that the clock can show, and the last tag that a move can have.
pub const LAST_STAMP: u32 = 4_000_000_000;

pub const LAST_TAG: u32 = 4_000_000_000;
