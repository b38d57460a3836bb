ghost use Rattle.std.specs.Prelude.{◌≡◌, ℕ, List, Option, drop};
ghost use Rattle.text.specs.Words.{Meant, meant, words_left};
ghost use Rattle.records.specs.Reading.{row_in};
ghost use Rattle.script.specs.Requests.{call_in, session_in, mode_in, listing_in, next_in};

use crate::request::Kind;
use keys::listing::Listing;
use keys::rows::ListingRow;
use records::reading::{key_in, row_in};
use rules::sheet::Mode;
use text::numbers::decimal;
use text::word::Word;
use text::words::Words;

// What a word of a line is read as, by its type.
pub(crate) trait Operand: Sized {
    ghost reading: { Meant → Option Self };

    fn read(word: Word<'_>) -> Option<Self>
        ensures { result ≡ reading (meant word.entry) };
}

// The call of a word call=NAME.
impl Operand for Kind {
    ghost reading = { call_in };

    fn read(word: Word<'_>) -> Option<Kind> {
        match word {
            Word::Call(name) => Kind::named(name),
            _ => None,
        }
    }
}

// The number of a word s=SESSION, of 32 bits. The `as` is proved to lose nothing; `try_from` would have an error that cannot come.
impl Operand for u32 {
    ghost reading = { session_in };

    fn read(word: Word<'_>) -> Option<u32> {
        match word {
            Word::Session(number) => Some(decimal(number, u32::MAX as u64)? as u32),
            _ => None,
        }
    }
}

// The mode of a word mode=plain or mode=checked.
impl Operand for Mode {
    ghost reading = { mode_in };

    fn read(word: Word<'_>) -> Option<Mode> {
        match word {
            Word::Mode(b"plain") => Some(Mode::Plain),
            Word::Mode(b"checked") => Some(Mode::Checked),
            _ => None,
        }
    }
}

// The listing of a word k=NUMBER, of 64 bits.
impl Operand for Listing {
    ghost reading = { listing_in };

    fn read(word: Word<'_>) -> Option<Listing> {
        let id = key_in(word)?;
        Some(Listing { id })
    }
}

// The row of a word v=PRICE,SEATS,SELLER.
impl Operand for ListingRow {
    ghost reading = { row_in };

    fn read(word: Word<'_>) -> Option<ListingRow> {
        row_in(word)
    }
}

// Takes the next word, and reads it.
pub(crate) fn next_in<T: Operand>(words: &mut Words<'_>) -> Option<T>
    ensures value { result ≡ next_in T.reading (words_left words.old) }
    ensures rest { words_left words.new ≡ drop 1 (words_left words.old) }
{
    T::read(words.next()?)
}
