ghost use Rattle.std.specs.Prelude.{◌≡◌, ◌≤◌, drop, IfSome};
ghost use Rattle.text.specs.Parts.{left};
ghost use Rattle.records.specs.Reading.{next_number, row_of, key_in, row_in, record_of};
ghost use Rattle.text.specs.Words.{meant};

use crate::record::Record;
use keys::listing::Listing;
use keys::rows::ListingRow;
use text::numbers::decimal;
use text::parts::Parts;
use text::word::Word;
use text::words::Words;

// Takes the next part and reads it as a number.
fn number(parts: &mut Parts<'_>, limit: u64) -> Option<u64>
    ensures value { result ≡ next_number limit (left parts.old) }
    ensures bound { IfSome result (λ n. n ≤ limit) }
    ensures rest { left parts.new ≡ drop 1 (left parts.old) }
{
    let part = parts.next()?;
    decimal(part, limit)
}

// Reads a row, written PRICE,SEATS,SELLER: numbers of 32, 16 and 32 bits. Each `as` is proved to lose nothing; `try_from` would have an
// error that cannot come.
pub fn listing_row(value: &[u8]) -> Option<ListingRow>
    ensures { result ≡ row_of value.now }
{
    let mut parts = Parts::of(value, b',');
    let price = number(&mut parts, u32::MAX as u64)?;
    let seats = number(&mut parts, u16::MAX as u64)?;
    let seller = number(&mut parts, u32::MAX as u64)?;
    if parts.next().is_some() {
        return None;
    }
    Some(ListingRow {
        price: price as u32,
        seller: seller as u32,
        seats: seats as u16,
    })
}

// The number of a word k=NUMBER.
pub fn key_in(word: Word<'_>) -> Option<u64>
    ensures value { result ≡ key_in (meant word.entry) }
    ensures bound { IfSome result (λ n. n ≤ 18446744073709551615) }
{
    match word {
        Word::Key(number) => decimal(number, u64::MAX),
        _ => None,
    }
}

// The row of a word v=PRICE,SEATS,SELLER.
pub fn row_in(word: Word<'_>) -> Option<ListingRow>
    ensures { result ≡ row_in (meant word.entry) }
{
    match word {
        Word::Row(value) => listing_row(value),
        _ => None,
    }
}

// Reads a line k=NUMBER v=PRICE,SEATS,SELLER.
pub fn record(line: &[u8]) -> Option<Record>
    ensures { result ≡ record_of line.now }
{
    let mut words = Words::of(line);
    let id = key_in(words.next()?)?;
    let row = row_in(words.next()?)?;
    if words.next().is_some() {
        return None;
    }
    Some(Record {
        key: Listing { id },
        row,
    })
}
