ghost use Rattle.std.specs.Prelude.{◌≡◌, ℕ, Bool, List};
ghost use Rattle.cold.specs.Cold.{Entry};
ghost use Rattle.rules.specs.Stores.{store, lent};
ghost use Rattle.rules.specs.Selling.{abandon_rule};
ghost use Rattle.rules.specs.Told.{told_done};

use crate::admit::admit;
use crate::undo::undo;
use keys::key::Key;
use rules::answers::Refusal;
use rules::sheet::Sheet;
use rules::tables::{HotRow, Line, Notice};
use scan::tables::Tables;

// Undoes the session and closes it.
pub fn abandon<K: Key, R: Copy>(
    sheet: &mut Sheet,
    hot: &mut [HotRow<K, R>],
    memo: &mut [Notice<K>],
    ledger: &mut [Line<K>],
    session: u32,
) -> Result<(), Refusal>
    ensures answer { (es : List (Entry R)) (limit : ℕ) (admits : ℕ → Bool) → told_done result
        ≡ (abandon_rule (lent hot.old memo.old ledger.old)
        (store sheet.old hot.old memo.old ledger.old es limit admits) session).answer }
    ensures after { (es : List (Entry R)) (limit : ℕ) (admits : ℕ → Bool)
        → store sheet.new hot.new memo.new ledger.new es limit admits
        ≡ (abandon_rule (lent hot.old memo.old ledger.old)
        (store sheet.old hot.old memo.old ledger.old es limit admits) session).after }
{
    let tables = Tables {
        sheet,
        hot,
        memo,
        ledger,
    };
    admit(&tables, session)?;
    undo(sheet, hot, memo, ledger, session);
    Ok(())
}
