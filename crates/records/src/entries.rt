ghost use Rattle.std.specs.Prelude.{◌≡◌, None};
ghost use Rattle.std.specs.Iterator.{YieldsFirst, item_count};
ghost use Rattle.text.specs.Parts.{lines};
ghost use Rattle.records.specs.Entries.{entry_of, above, key_after, entries, entries_left};

use crate::reading::record;
use crate::record::{BadLine, Entry};
use keys::key::OrderedKey;
use keys::listing::Listing;
use text::lines::Lines;

// Whether a key is above that of the record before it, if there was one.
fn is_above(key: &Listing, last: &Option<Listing>) -> bool
    ensures { result ≡ above last.now key.now }
{
    last.is_none_or(|before| before.is_below(key))
}

// What a line holds after a record of key `last`: a record of a higher key, or nothing that can be served.
fn read_entry(last: &Option<Listing>, line: &[u8]) -> Entry
    ensures { result ≡ entry_of last.now line.now }
{
    record(line)
        .filter(|read| is_above(&read.key, last))
        .ok_or(BadLine)
}

// The last key after an entry: a bad one leaves it as it was.
fn last_after(last: Option<Listing>, entry: &Entry) -> Option<Listing>
    ensures { result ≡ key_after last entry.now }
{
    entry.ok().map(|read| read.key).or(last)
}

// Gives the entries of an archive's text, one for each line.
#[derive(Clone, Copy, Debug)]
pub struct Entries<'a> {
    lines: Lines<'a>,
    last: Option<Listing>,
}

impl<'a> Entries<'a> {
    // The reader of all entries: before the first line there was no record.
    pub fn of(input: &'a [u8]) -> Entries<'a>
        ensures { entries_left result ≡ entries None (lines input.now) }
    {
        Entries {
            lines: Lines::of(input),
            last: None,
        }
    }
}

impl<'a> Iterator for Entries<'a> {
    type Item = Entry;

    ghost next_gives = { YieldsFirst entries_left };

    ghost remaining = { item_count entries_left };

    fn next(&mut self) -> Option<Entry> {
        let line = self.lines.next()?;
        let entry = read_entry(&self.last, line);
        self.last = last_after(self.last, &entry);
        Some(entry)
    }
}
