ghost use Rattle.std.specs.Prelude.{◌≡◌, ℕ, Bool, List, IfErr};
ghost use Rattle.cold.specs.Cold.{Entry};
ghost use Rattle.rules.specs.Stores.{store, lent};
ghost use Rattle.rules.specs.Moving.{settle_rule};
ghost use Rattle.mover.specs.Hands.{told_moved, LeftBy};

use crate::moves::{Copied, Move, Stopped};
use keys::key::Key;
use marks::notices::settle_notice;
use rules::answers::{Refusal, Side};
use rules::sheet::Sheet;
use rules::tables::{HotRow, Line, MoveMark, Notice};
use slots::change::edit_first;
use slots::count::take_out;
use slots::search::find_first;

// Ends a copied move: its row leaves the hot table, and its notice tells from when on the cold entry is seen.
pub fn settle<K: Key, R: Copy>(
    sheet: &mut Sheet,
    hot: &mut [HotRow<K, R>],
    memo: &mut [Notice<K>],
    ledger: &[Line<K>],
    moving: Move<Copied>,
) -> Result<(), Stopped<Move<Copied>>>
    ensures answer { (cold : List (Entry R)) (limit : ℕ) (admits : ℕ → Bool) → told_moved result
        ≡ (settle_rule K.Key.number (lent hot.old memo.old ledger.now)
        (store sheet.old hot.old memo.old ledger.now cold limit admits) moving.tag).answer }
    ensures after { (cold : List (Entry R)) (limit : ℕ) (admits : ℕ → Bool)
        → store sheet.new hot.new memo.new ledger.now cold limit admits
        ≡ (settle_rule K.Key.number (lent hot.old memo.old ledger.now)
        (store sheet.old hot.old memo.old ledger.now cold limit admits) moving.tag).after }
    ensures hand { IfErr result (LeftBy moving) }
{
    if !sheet.is_lent(hot, memo, ledger) {
        return Err(Stopped::Kept(moving, Refusal::OutOfRange(Side::Mover)));
    }
    let Move { tag, stage: _ } = moving;
    let found = find_first(hot, sheet.hot.used, |row| row.mark == MoveMark::Copied(tag));
    let Some(hit) = found else {
        return Err(Stopped::Over(Refusal::MoveOver));
    };
    let number = hit.it.key.number();
    let begin = hit.it.begin.stamp().unwrap_or(1);
    sheet.hot.used = take_out(hot, sheet.hot.used, hit.at);
    edit_first(
        memo,
        sheet.memo.used,
        |notice| notice.is_for(number, tag),
        |notice| settle_notice(notice, begin),
    );
    Ok(())
}
