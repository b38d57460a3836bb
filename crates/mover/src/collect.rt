ghost use Rattle.std.specs.Prelude.{◌≡◌, ℕ, Bool, List};
ghost use Rattle.cold.specs.Cold.{Entry};
ghost use Rattle.rules.specs.Stores.{store, lent};
ghost use Rattle.rules.specs.Told.{told_done};
ghost use Rattle.rules.specs.Moving.{collect_rule};

use keys::key::Key;
use rules::answers::{Refusal, Side};
use rules::sheet::Sheet;
use rules::tables::{HotRow, Line, Notice};
use slots::count::retain;

// Takes out the hot rows that ended at or before the horizon. The others stay in their order.
pub fn collect<K: Key, R: Copy>(
    sheet: &mut Sheet,
    hot: &mut [HotRow<K, R>],
    memo: &[Notice<K>],
    ledger: &[Line<K>],
) -> Result<(), Refusal>
    ensures answer { (cold : List (Entry R)) (limit : ℕ) (admits : ℕ → Bool) → told_done result
        ≡ (collect_rule (lent hot.old memo.now ledger.now)
        (store sheet.old hot.old memo.now ledger.now cold limit admits)).answer }
    ensures after { (cold : List (Entry R)) (limit : ℕ) (admits : ℕ → Bool)
        → store sheet.new hot.new memo.now ledger.now cold limit admits
        ≡ (collect_rule (lent hot.old memo.now ledger.now)
        (store sheet.old hot.old memo.now ledger.now cold limit admits)).after }
{
    if !sheet.is_lent(hot, memo, ledger) {
        return Err(Refusal::OutOfRange(Side::Mover));
    }
    let horizon = sheet.horizon();
    sheet.hot.used = retain(hot, sheet.hot.used, |row| !row.is_past(horizon));
    Ok(())
}
