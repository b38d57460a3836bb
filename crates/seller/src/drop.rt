ghost use Rattle.std.specs.Prelude.{◌≡◌};
ghost use Rattle.rules.specs.Stores.{store, lent};
ghost use Rattle.rules.specs.Selling.{drop_rule};
ghost use Rattle.rules.specs.Told.{told_was};

use crate::admit::admit;
use crate::ending::{end_version, ending_of};
use crate::ledger::{is_ledger_short, note_line};
use cold::store::ColdStore;
use filter::Filter;
use keys::key::Key;
use rules::answers::Refusal;
use rules::sheet::Sheet;
use rules::tables::{HotRow, Line, Notice};
use rules::times::Reader;
use scan::look::Look;
use scan::tables::Tables;
use slots::count::take_out;

// Takes the session's own unfinished version of the key out, or else ends the one that it sees. Answers whether there was a row.
// A checked session's look is entered in the ledger.
pub fn drop<K: Key, R: Copy, C: ColdStore<K, R>, F: Filter>(
    sheet: &mut Sheet,
    hot: &mut [HotRow<K, R>],
    memo: &mut [Notice<K>],
    ledger: &mut [Line<K>],
    cold: &C,
    filter: &F,
    session: u32,
    key: K,
) -> Result<bool, Refusal>
    ensures answer { told_was result
        ≡ (drop_rule K.Key.number (lent hot.old memo.old ledger.old)
        (store sheet.old hot.old memo.old ledger.old (C.ColdStore.entries cold.now)
        (C.ColdStore.limit cold.now) (F.Filter.admitted filter.now)) session key).answer }
    ensures after { store sheet.new hot.new memo.new ledger.new (C.ColdStore.entries cold.now)
        (C.ColdStore.limit cold.now) (F.Filter.admitted filter.now)
        ≡ (drop_rule K.Key.number (lent hot.old memo.old ledger.old)
        (store sheet.old hot.old memo.old ledger.old (C.ColdStore.entries cold.now)
        (C.ColdStore.limit cold.now) (F.Filter.admitted filter.now)) session key).after }
{
    sheet.finds = 0;
    let tables = Tables {
        sheet,
        hot,
        memo,
        ledger,
    };
    let reading = admit(&tables, session)?;
    let reader = Reader {
        session,
        time: reading.time,
    };
    let number = key.number();
    let look = Look { reader, number };
    if tables.is_conflict(look) {
        return Err(Refusal::Conflict);
    }
    let line = tables
        .is_line_new(reading.mode, look)
        .then_some(Line { session, key });
    if is_ledger_short(sheet, line) {
        return Err(Refusal::LedgerFull);
    }
    if let Some(at) = tables.own_place(look) {
        let rows = take_out(hot, sheet.hot.used, at);
        let lines = note_line(ledger, sheet.ledger.used, line);
        sheet.hot.used = rows;
        sheet.ledger.used = lines;
        return Ok(true);
    }
    let looked = tables.lookup(cold, filter, reader, &key);
    let ending = ending_of(&tables, number, looked.seen)?;
    let notices = end_version(hot, memo, sheet.memo.used, ending, session, key);
    let lines = note_line(ledger, sheet.ledger.used, line);
    sheet.finds = looked.finds;
    sheet.memo.used = notices;
    sheet.ledger.used = lines;
    Ok(looked.seen.is_some())
}
