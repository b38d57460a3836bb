ghost use Rattle.std.specs.Prelude.{◌≡◌, ℕ, ◌<◌, Bool, List};
ghost use Rattle.cold.specs.Cold.{Entry};
ghost use Rattle.rules.specs.Stores.{store};
ghost use Rattle.rules.specs.Selling.{undone, close};

use crate::closing::close;
use keys::key::Key;
use rules::sheet::Sheet;
use rules::tables::{HotRow, Line, Notice};
use scan::edits::{notice_stays, reopen_notice, reopen_row, row_stays};
use slots::change::edit_all;
use slots::count::retain;

// Undoes the session and closes it.
pub(crate) fn undo<K: Key, R: Copy>(
    sheet: &mut Sheet,
    hot: &mut [HotRow<K, R>],
    memo: &mut [Notice<K>],
    ledger: &mut [Line<K>],
    session: u32,
)
    requires { session < 64 }
    ensures { (es : List (Entry R)) (limit : ℕ) (admits : ℕ → Bool)
        → store sheet.new hot.new memo.new ledger.new es limit admits
        ≡ close (undone (store sheet.old hot.old memo.old ledger.old es limit admits) session) session }
{
    let rows = retain(hot, sheet.hot.used, |row| row_stays(row, session));
    edit_all(hot, rows, |row| reopen_row(row, session));
    let notices = retain(
        memo,
        sheet.memo.used,
        |notice| notice_stays(notice, session),
    );
    edit_all(memo, notices, |notice| reopen_notice(notice, session));
    sheet.hot.used = rows;
    sheet.memo.used = notices;
    close::<K, R>(sheet, ledger, session);
}
