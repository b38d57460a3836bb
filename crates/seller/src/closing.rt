ghost use Rattle.std.specs.Prelude.{◌≡◌, ℕ, ◌<◌, Bool, List};
ghost use Rattle.cold.specs.Cold.{Entry};
ghost use Rattle.rules.specs.Stores.{store, closed};
ghost use Rattle.rules.specs.Selling.{close};

use keys::key::Key;
use rules::sheet::{Session, Sheet};
use rules::tables::{HotRow, Line, Notice};
use slots::count::retain;

fn close_entry(entry: &mut Session)
    ensures { entry.new ≡ closed }
{
    entry.reading = None;
}

// Takes the session's lines out and closes it.
pub(crate) fn close<K: Key, R: Copy>(sheet: &mut Sheet, ledger: &mut [Line<K>], session: u32)
    requires { session < 64 }
    ensures { (hot : List (HotRow K R)) (memo : List (Notice K)) (es : List (Entry R)) (limit : ℕ) (admits : ℕ → Bool)
        → store sheet.new hot memo ledger.new es limit admits
        ≡ close (store sheet.old hot memo ledger.old es limit admits) session }
{
    let lines = retain(ledger, sheet.ledger.used, |line| line.session != session);
    sheet.ledger.used = lines;
    close_entry(&mut sheet.sessions[session as usize]);
}
