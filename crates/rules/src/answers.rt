use crate::sheet::Mode;
use cold::store::ColdRefusal;

// Who calls: a seller (the opening too), or a mover, who also sweeps and collects.
#[derive(Clone, Copy, Debug, PartialEq, Eq)]
pub enum Side {
    Seller,
    Mover,
}

// Where a refusal arose.
#[derive(Clone, Copy, Debug, PartialEq, Eq)]
pub enum Layer {
    Seller,
    Move,
    Cold,
}

// Why a call is refused.
#[derive(Clone, Copy, Debug, PartialEq, Eq)]
pub enum Refusal {
    // a length or a number of the opening is out of range, or the lent lengths are not the opening's
    OutOfRange(Side),
    // the session's number is above 63
    NoSession,
    // begin: the session is open already
    AlreadyOpen,
    // the session is not open
    NotOpen,
    // put, drop: another session's mark, or a stamp above the read time
    Conflict,
    // read, drop: a new ledger line is needed
    LedgerFull,
    // put: a new hot row is needed
    HotFull,
    // put, drop, choose: a new notice is needed
    MemoFull(Side),
    // commit: what the session read has changed since; it is undone
    StaleRead,
    // commit: no stamp is left
    ClockAtEnd,
    // choose: no hot row of the key with a stamp as begin and an open end
    NoRow,
    // choose: that row is on the move already
    AlreadyMarked,
    // choose: no tag is left
    TagsAtEnd,
    // copy, settle, give-up: no hot row with that tag in that state
    MoveOver,
    // copy: the cold store's own refusal, whole
    Cold(ColdRefusal),
}

// What a sweep did.
#[derive(Clone, Copy, Debug, PartialEq, Eq)]
pub enum Swept {
    Gone,
    Emptied,
    NoneDue,
}

// What a call answers where it is served. One type for all twelve calls, so that a run can be a list of calls, each with its
// Result<Answer<R>, Refusal>.
#[derive(Clone, Copy, Debug, PartialEq, Eq)]
pub enum Answer<R> {
    // begin, put, abandon, copy, settle, give-up, collect
    Done,
    // read: the row, or nothing
    Row(Option<R>),
    // drop: whether there was a row
    Was(bool),
    // commit: the stamp, or 0 where the session had no marks
    At(u32),
    // choose: the tag
    Tag(u32),
    // sweep
    Swept(Swept),
}

// The twelve calls on an open store. A session is named by its number, a move by its tag.
#[derive(Clone, Copy, Debug, PartialEq, Eq)]
pub enum Call<K, R> {
    Begin(u32, Mode),
    Read(u32, K),
    Put(u32, K, R),
    Drop(u32, K),
    Commit(u32),
    Abandon(u32),
    Choose(K),
    Copy(u32),
    Settle(u32),
    GiveUp(u32),
    Sweep,
    Collect,
}
