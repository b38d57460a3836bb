ghost use Rattle.std.specs.Prelude.{◌≡◌, ◌&&◌, is_some, length, take, nat_le};
ghost use Rattle.std.specs.Option.{option_map_or};
ghost use Rattle.slots.specs.Lists.{appended, count_with};

use keys::key::Key;
use rules::sheet::Sheet;
use rules::tables::Line;
use slots::count::append;

// Whether there is a line to be entered and no slot is left for it.
pub(crate) fn is_ledger_short<K: Key>(sheet: &Sheet, line: Option<Line<K>>) -> bool
    ensures { result ≡ is_some line && nat_le sheet.now.ledger.length sheet.now.ledger.used }
{
    line.is_some() && sheet.ledger.is_full()
}

// Enters a line where there is one to be entered, and answers how many there are then.
pub(crate) fn note_line<K: Key>(ledger: &mut [Line<K>], used: usize, line: Option<Line<K>>) -> usize
    ensures count { result ≡ option_map_or (λ x. count_with (length ledger.old) used) line used }
    ensures list { take result ledger.new
        ≡ option_map_or (λ x. appended (length ledger.old) used x (take used ledger.old)) line (take used ledger.old) }
{
    match line {
        None => used,
        Some(line) => append(ledger, used, line),
    }
}
