ghost use Rattle.std.specs.Prelude.{◌≡◌, ℕ, Bool, List};
ghost use Rattle.cold.specs.Cold.{Entry};
ghost use Rattle.rules.specs.Stores.{store, lent};
ghost use Rattle.rules.specs.Moving.{choose_rule};
ghost use Rattle.mover.specs.Hands.{told_chosen};

use crate::moves::{Chosen, Move};
use keys::key::Key;
use marks::rows::is_movable;
use rules::answers::{Refusal, Side};
use rules::limits::LAST_TAG;
use rules::sheet::Sheet;
use rules::tables::{HotRow, Kind, Line, MoveMark, Notice};
use slots::change::edit_at;
use slots::count::append;
use slots::search::find_first;
use std::marker::PhantomData;

// Starts the move of a key's row: marks it chosen with a new tag, and adds the notice that hides its cold entry to be.
pub fn choose<K: Key, R: Copy>(
    sheet: &mut Sheet,
    hot: &mut [HotRow<K, R>],
    memo: &mut [Notice<K>],
    ledger: &[Line<K>],
    key: K,
) -> Result<Move<Chosen>, Refusal>
    ensures answer { (cold : List (Entry R)) (limit : ℕ) (admits : ℕ → Bool) → told_chosen result
        ≡ (choose_rule K.Key.number (lent hot.old memo.old ledger.now)
        (store sheet.old hot.old memo.old ledger.now cold limit admits) key).answer }
    ensures after { (cold : List (Entry R)) (limit : ℕ) (admits : ℕ → Bool)
        → store sheet.new hot.new memo.new ledger.now cold limit admits
        ≡ (choose_rule K.Key.number (lent hot.old memo.old ledger.now)
        (store sheet.old hot.old memo.old ledger.now cold limit admits) key).after }
{
    if !sheet.is_lent(hot, memo, ledger) {
        return Err(Refusal::OutOfRange(Side::Mover));
    }
    let number = key.number();
    let hit = find_first(hot, sheet.hot.used, |row| is_movable(row, number)).ok_or(Refusal::NoRow)?;
    if hit.it.mark != MoveMark::Unmoved {
        return Err(Refusal::AlreadyMarked);
    }
    if sheet.last_tag >= LAST_TAG {
        return Err(Refusal::TagsAtEnd);
    }
    if sheet.memo.is_full() {
        return Err(Refusal::MemoFull(Side::Mover));
    }
    let tag = sheet.last_tag + 1;
    edit_at(hot, hit.at, |row| row.mark = MoveMark::Chosen(tag));
    let pending = Notice {
        key,
        tag,
        kind: Kind::N,
        begin: 1,
        end: None,
    };
    sheet.memo.used = append(memo, sheet.memo.used, pending);
    sheet.last_tag = tag;
    Ok(Move {
        tag,
        stage: PhantomData,
    })
}
