ghost use Rattle.std.specs.Prelude.{◌≡◌, MatchResult};
ghost use Rattle.cold.specs.Cold.{put_answer, put_after};
ghost use Rattle.rules.specs.Stores.{store, lent};
ghost use Rattle.rules.specs.Moving.{copy_rule, HasMore};
ghost use Rattle.mover.specs.Hands.{told_moved, LeftBy};
ghost use Rattle.mover.specs.Grown.{Grown};

use crate::moves::{Chosen, Copied, Move, Stopped};
use cold::store::{ColdRefusal, ColdStore};
use filter::Filter;
use keys::key::Key;
use rules::answers::{Refusal, Side};
use rules::sheet::Sheet;
use rules::tables::{HotRow, Line, MoveMark, Notice};
use slots::change::edit_at;
use slots::search::find_first;
use std::marker::PhantomData;

// Puts a row into the cold store. The filter has its key first, so that it admits every key that the store has.
fn put_below<K: Key, R: Copy, C: ColdStore<K, R>, F: Filter>(
    cold: &mut C,
    filter: &mut F,
    hot_row: &HotRow<K, R>,
    tag: u32,
) -> Result<(), ColdRefusal>
    ensures answer { result
        ≡ put_answer (C.ColdStore.limit cold.old) (C.ColdStore.entries cold.old)
        (K.Key.number hot_row.now.key) tag }
    ensures after { C.ColdStore.entries cold.new
        ≡ put_after (C.ColdStore.limit cold.old) (C.ColdStore.entries cold.old)
        (K.Key.number hot_row.now.key) tag hot_row.now.row }
    ensures limit { C.ColdStore.limit cold.new ≡ C.ColdStore.limit cold.old }
    ensures grown { HasMore (K.Key.number hot_row.now.key) (F.Filter.admitted filter.old)
        (F.Filter.admitted filter.new) }
{
    filter.add(hot_row.key.number());
    cold.put(hot_row.key, tag, hot_row.row)
}

// Copies the row of a chosen move into the cold store, and marks it copied.
pub fn copy<K: Key, R: Copy, C: ColdStore<K, R>, F: Filter>(
    sheet: &Sheet,
    hot: &mut [HotRow<K, R>],
    memo: &[Notice<K>],
    ledger: &[Line<K>],
    cold: &mut C,
    filter: &mut F,
    moving: Move<Chosen>,
) -> Result<Move<Copied>, Stopped<Move<Chosen>>>
    ensures answer { told_moved result
        ≡ (copy_rule K.Key.number (lent hot.old memo.now ledger.now)
        (store sheet.now hot.old memo.now ledger.now (C.ColdStore.entries cold.old)
        (C.ColdStore.limit cold.old) (F.Filter.admitted filter.old))
        moving.tag (F.Filter.admitted filter.new)).answer }
    ensures after { store sheet.now hot.new memo.now ledger.now
        (C.ColdStore.entries cold.new) (C.ColdStore.limit cold.new) (F.Filter.admitted filter.new)
        ≡ (copy_rule K.Key.number (lent hot.old memo.now ledger.now)
        (store sheet.now hot.old memo.now ledger.now (C.ColdStore.entries cold.old)
        (C.ColdStore.limit cold.old) (F.Filter.admitted filter.old))
        moving.tag (F.Filter.admitted filter.new)).after }
    ensures grown { Grown K.Key.number (lent hot.old memo.now ledger.now)
        (store sheet.now hot.old memo.now ledger.now (C.ColdStore.entries cold.old)
        (C.ColdStore.limit cold.old) (F.Filter.admitted filter.old))
        moving.tag (F.Filter.admitted filter.new) }
    ensures hand { MatchResult result (λ copied. copied.tag ≡ moving.tag) (LeftBy moving) }
{
    if !sheet.is_lent(hot, memo, ledger) {
        return Err(Stopped::Kept(moving, Refusal::OutOfRange(Side::Mover)));
    }
    let found = find_first(
        hot,
        sheet.hot.used,
        |row| row.mark == MoveMark::Chosen(moving.tag),
    );
    let Some(hit) = found else {
        let Move { tag: _, stage: _ } = moving;
        return Err(Stopped::Over(Refusal::MoveOver));
    };
    if let Err(why) = put_below(cold, filter, &hit.it, moving.tag) {
        return Err(Stopped::Kept(moving, Refusal::Cold(why)));
    }
    let Move { tag, stage: _ } = moving;
    edit_at(hot, hit.at, |row| row.mark = MoveMark::Copied(tag));
    Ok(Move {
        tag,
        stage: PhantomData,
    })
}
