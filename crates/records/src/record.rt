use keys::listing::Listing;
use keys::rows::ListingRow;
use std::error::Error;

// A listing as a text of an archive has it: its key and its row.
#[derive(Clone, Copy, Debug, PartialEq, Eq)]
pub struct Record {
    pub key: Listing,
    pub row: ListingRow,
}

// A line of an archive that holds nothing that can be served.
#[derive(Clone, Copy, Debug, PartialEq, Eq)]
pub struct BadLine;

impl Error for BadLine {}

// What a line of an archive holds.
pub type Entry = Result<Record, BadLine>;
