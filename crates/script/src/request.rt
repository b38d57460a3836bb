use keys::listing::Listing;
use keys::rows::ListingRow;
use rules::sheet::Mode;

// The calls that a line may name.
#[derive(Clone, Copy, Debug, PartialEq, Eq)]
pub enum Kind {
    Begin,
    Read,
    Put,
    Drop,
    Commit,
    Abandon,
    Choose,
    Copy,
    Settle,
    GiveUp,
    Sweep,
    Collect,
}

// What a line asks for. A session is named by its number; copy, settle and give-up are of the move in hand, so a request has no tag
// where a `rules::answers::Call` has one.
#[derive(Clone, Copy, Debug, PartialEq, Eq)]
pub enum Request {
    Begin(u32, Mode),
    Read(u32, Listing),
    Put(u32, Listing, ListingRow),
    Drop(u32, Listing),
    Commit(u32),
    Abandon(u32),
    Choose(Listing),
    Copy,
    Settle,
    GiveUp,
    Sweep,
    Collect,
}
