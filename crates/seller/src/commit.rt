ghost use Rattle.std.specs.Prelude.{◌≡◌, ℕ, Bool, List};
ghost use Rattle.cold.specs.Cold.{Entry};
ghost use Rattle.rules.specs.Stores.{store, lent};
ghost use Rattle.rules.specs.Selling.{commit_rule};
ghost use Rattle.rules.specs.Told.{told_at};

use crate::admit::admit;
use crate::closing::close;
use crate::undo::undo;
use keys::key::Key;
use rules::answers::Refusal;
use rules::limits::LAST_STAMP;
use rules::sheet::Sheet;
use rules::tables::{HotRow, Line, Notice};
use scan::edits::{stamp_notice, stamp_row};
use scan::tables::Tables;
use slots::change::edit_all;

// Makes the session's changes last, and answers their stamp: 0 where there are none. A stale read undoes the session.
// 0 and no Option: the rule answers a number, and callers print it.
pub fn commit<K: Key, R: Copy>(
    sheet: &mut Sheet,
    hot: &mut [HotRow<K, R>],
    memo: &mut [Notice<K>],
    ledger: &mut [Line<K>],
    session: u32,
) -> Result<u32, Refusal>
    ensures answer { (es : List (Entry R)) (limit : ℕ) (admits : ℕ → Bool) → told_at result
        ≡ (commit_rule K.Key.number (lent hot.old memo.old ledger.old)
        (store sheet.old hot.old memo.old ledger.old es limit admits) session).answer }
    ensures after { (es : List (Entry R)) (limit : ℕ) (admits : ℕ → Bool)
        → store sheet.new hot.new memo.new ledger.new es limit admits
        ≡ (commit_rule K.Key.number (lent hot.old memo.old ledger.old)
        (store sheet.old hot.old memo.old ledger.old es limit admits) session).after }
{
    let tables = Tables {
        sheet,
        hot,
        memo,
        ledger,
    };
    let reading = admit(&tables, session)?;
    if !tables.is_marked(session) {
        close::<K, R>(sheet, ledger, session);
        return Ok(0);
    }
    if tables.is_stale(session, reading) {
        undo(sheet, hot, memo, ledger, session);
        return Err(Refusal::StaleRead);
    }
    if sheet.clock >= LAST_STAMP {
        return Err(Refusal::ClockAtEnd);
    }
    let stamp = sheet.clock + 1;
    edit_all(hot, sheet.hot.used, |row| stamp_row(row, session, stamp));
    edit_all(
        memo,
        sheet.memo.used,
        |notice| stamp_notice(notice, session, stamp),
    );
    sheet.clock = stamp;
    close::<K, R>(sheet, ledger, session);
    Ok(stamp)
}
