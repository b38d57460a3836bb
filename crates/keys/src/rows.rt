ghost use Rattle.std.specs.Prelude.{◌^◌, ◌<◌};

// A number of 32 bits whose type says so, for a variant of an enum.
#[derive(Clone, Copy, Debug, PartialEq, Eq)]
pub struct Word32 {
    pub value: u32,
    ghost fits: { value < 2 ^ 32 },
}

// What a listing offers: the price of a seat in cents, who sells, and how many seats.
#[derive(Clone, Copy, Debug, PartialEq, Eq)]
pub struct ListingRow {
    pub price: u32,
    pub seller: u32,
    pub seats: u16,
    ghost fits: { (price < 2 ^ 32) × (seller < 2 ^ 32) × (seats < 2 ^ 16) },
}

// Where a help case stands: opened, waiting until a day, or closed with an outcome.
#[derive(Clone, Copy, Debug, PartialEq, Eq)]
pub enum CaseRow {
    Opened,
    Waiting(Word32),
    Closed(Word32),
}
