ghost use Rattle.std.specs.Prelude.{◌≡◌};
ghost use Rattle.rules.specs.Stores.{store, lent};
ghost use Rattle.rules.specs.Selling.{read_rule};
ghost use Rattle.rules.specs.Told.{told_row};

use crate::admit::admit;
use crate::ledger::{is_ledger_short, note_line};
use cold::store::ColdStore;
use filter::Filter;
use keys::key::Key;
use rules::answers::Refusal;
use rules::sheet::Sheet;
use rules::tables::{HotRow, Line, Notice};
use rules::times::Reader;
use scan::look::Look;
use scan::tables::Tables;

// The row that the session sees of the key, if there is one. A checked session's look is entered in the ledger.
pub fn read<K: Key, R: Copy, C: ColdStore<K, R>, F: Filter>(
    sheet: &mut Sheet,
    hot: &[HotRow<K, R>],
    memo: &[Notice<K>],
    ledger: &mut [Line<K>],
    cold: &C,
    filter: &F,
    session: u32,
    key: K,
) -> Result<Option<R>, Refusal>
    ensures answer { told_row result
        ≡ (read_rule K.Key.number (lent hot.now memo.now ledger.old)
        (store sheet.old hot.now memo.now ledger.old (C.ColdStore.entries cold.now)
        (C.ColdStore.limit cold.now) (F.Filter.admitted filter.now)) session key).answer }
    ensures after { store sheet.new hot.now memo.now ledger.new (C.ColdStore.entries cold.now)
        (C.ColdStore.limit cold.now) (F.Filter.admitted filter.now)
        ≡ (read_rule K.Key.number (lent hot.now memo.now ledger.old)
        (store sheet.old hot.now memo.now ledger.old (C.ColdStore.entries cold.now)
        (C.ColdStore.limit cold.now) (F.Filter.admitted filter.now)) session key).after }
{
    sheet.finds = 0;
    let tables = Tables {
        sheet,
        hot,
        memo,
        ledger,
    };
    let reading = admit(&tables, session)?;
    let reader = Reader {
        session,
        time: reading.time,
    };
    let number = key.number();
    let line = tables
        .is_line_new(reading.mode, Look { reader, number })
        .then_some(Line { session, key });
    if is_ledger_short(sheet, line) {
        return Err(Refusal::LedgerFull);
    }
    let looked = tables.lookup(cold, filter, reader, &key);
    let lines = note_line(ledger, sheet.ledger.used, line);
    sheet.finds = looked.finds;
    sheet.ledger.used = lines;
    Ok(looked.row())
}
