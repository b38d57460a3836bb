ghost use Rattle.std.specs.Prelude.{◌≡◌, ℕ, Bool, List, IfErr};
ghost use Rattle.cold.specs.Cold.{Entry};
ghost use Rattle.rules.specs.Stores.{store, lent};
ghost use Rattle.rules.specs.Moving.{give_up_rule};
ghost use Rattle.mover.specs.Hands.{told_moved, LeftBy};

use crate::moves::{Move, Stopped};
use keys::key::Key;
use marks::rows::bears;
use rules::answers::{Refusal, Side};
use rules::sheet::Sheet;
use rules::tables::{HotRow, Line, MoveMark, Notice};
use slots::change::edit_first;

// Ends a move, chosen or copied, before it is settled: its row stays in the hot table, and bears no mark.
pub fn give_up<K: Key, R: Copy, S>(
    sheet: &Sheet,
    hot: &mut [HotRow<K, R>],
    memo: &[Notice<K>],
    ledger: &[Line<K>],
    moving: Move<S>,
) -> Result<(), Stopped<Move<S>>>
    ensures answer { (cold : List (Entry R)) (limit : ℕ) (admits : ℕ → Bool) → told_moved result
        ≡ (give_up_rule (lent hot.old memo.now ledger.now)
        (store sheet.now hot.old memo.now ledger.now cold limit admits) moving.tag).answer }
    ensures after { (cold : List (Entry R)) (limit : ℕ) (admits : ℕ → Bool)
        → store sheet.now hot.new memo.now ledger.now cold limit admits
        ≡ (give_up_rule (lent hot.old memo.now ledger.now)
        (store sheet.now hot.old memo.now ledger.now cold limit admits) moving.tag).after }
    ensures hand { IfErr result (LeftBy moving) }
{
    if !sheet.is_lent(hot, memo, ledger) {
        return Err(Stopped::Kept(moving, Refusal::OutOfRange(Side::Mover)));
    }
    let Move { tag, stage: _ } = moving;
    if !edit_first(
        hot,
        sheet.hot.used,
        |row| bears(row, tag),
        |row| row.mark = MoveMark::Unmoved,
    ) {
        return Err(Stopped::Over(Refusal::MoveOver));
    }
    Ok(())
}
