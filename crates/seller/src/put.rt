ghost use Rattle.std.specs.Prelude.{◌≡◌};
ghost use Rattle.rules.specs.Stores.{store, lent};
ghost use Rattle.rules.specs.Selling.{put_rule};
ghost use Rattle.rules.specs.Told.{told_done};

use crate::admit::admit;
use crate::ending::{end_version, ending_of};
use cold::store::ColdStore;
use filter::Filter;
use keys::key::Key;
use rules::answers::Refusal;
use rules::sheet::Sheet;
use rules::tables::{HotRow, Line, MoveMark, Notice};
use rules::times::{Moment, Reader};
use scan::look::Look;
use scan::tables::Tables;
use slots::change::edit_at;
use slots::count::append;

// Makes the row the session's version of the key: in place of its own unfinished one, or else of the one that it sees.
pub fn put<K: Key, R: Copy, C: ColdStore<K, R>, F: Filter>(
    sheet: &mut Sheet,
    hot: &mut [HotRow<K, R>],
    memo: &mut [Notice<K>],
    ledger: &[Line<K>],
    cold: &C,
    filter: &F,
    session: u32,
    key: K,
    row: R,
) -> Result<(), Refusal>
    ensures answer { told_done result
        ≡ (put_rule K.Key.number (lent hot.old memo.old ledger.now)
        (store sheet.old hot.old memo.old ledger.now (C.ColdStore.entries cold.now)
        (C.ColdStore.limit cold.now) (F.Filter.admitted filter.now)) session key row).answer }
    ensures after { store sheet.new hot.new memo.new ledger.now (C.ColdStore.entries cold.now)
        (C.ColdStore.limit cold.now) (F.Filter.admitted filter.now)
        ≡ (put_rule K.Key.number (lent hot.old memo.old ledger.now)
        (store sheet.old hot.old memo.old ledger.now (C.ColdStore.entries cold.now)
        (C.ColdStore.limit cold.now) (F.Filter.admitted filter.now)) session key row).after }
{
    sheet.finds = 0;
    let tables = Tables {
        sheet,
        hot,
        memo,
        ledger,
    };
    let reading = admit(&tables, session)?;
    let reader = Reader {
        session,
        time: reading.time,
    };
    let number = key.number();
    let look = Look { reader, number };
    if tables.is_conflict(look) {
        return Err(Refusal::Conflict);
    }
    if let Some(at) = tables.own_place(look) {
        edit_at(hot, at, |version| version.row = row);
        return Ok(());
    }
    if tables.sheet.hot.is_full() {
        return Err(Refusal::HotFull);
    }
    let looked = tables.lookup(cold, filter, reader, &key);
    let ending = ending_of(&tables, number, looked.seen)?;
    let notices = end_version(hot, memo, sheet.memo.used, ending, session, key);
    let rows = append(
        hot,
        sheet.hot.used,
        HotRow {
            key,
            row,
            begin: Moment::Mark(session),
            end: None,
            mark: MoveMark::Unmoved,
        },
    );
    sheet.finds = looked.finds;
    sheet.hot.used = rows;
    sheet.memo.used = notices;
    Ok(())
}
