ghost use Rattle.std.specs.Prelude.{◌≡◌, ℕ, Bool};
ghost use Rattle.cold.specs.Cold.{removed_after};
ghost use Rattle.slots.specs.Lists.{changed_at};
ghost use Rattle.rules.specs.Stores.{store, lent};
ghost use Rattle.rules.specs.Told.{told_swept};
ghost use Rattle.rules.specs.Moving.{with_kind, sweep_rule};

use crate::due::first_due;
use cold::store::ColdStore;
use keys::key::Key;
use rules::answers::{Refusal, Side, Swept};
use rules::notices::NoticeEvent;
use rules::sheet::Sheet;
use rules::tables::{HotRow, Kind, Line, Notice};
use slots::change::edit_at;
use slots::count::take_out;
use slots::hit::Hit;

// Empties a notice out: its cold entry is removed, and only then it turns into the given kind.
fn empty_out<K: Key, R: Copy, C: ColdStore<K, R>>(
    memo: &mut [Notice<K>],
    cold: &mut C,
    due: Hit<Notice<K>>,
    kind: Kind,
)
    ensures notice { memo.new ≡ changed_at due.at (with_kind kind) memo.old }
    ensures entry { C.ColdStore.entries cold.new
        ≡ removed_after (C.ColdStore.entries cold.old) (K.Key.number due.it.key) due.it.tag }
    ensures limit { C.ColdStore.limit cold.new ≡ C.ColdStore.limit cold.old }
{
    cold.remove(&due.it.key, due.it.tag);
    edit_at(memo, due.at, |notice| notice.kind = kind);
}

// Takes up the first due notice: it is taken out, or emptied out.
pub fn sweep<K: Key, R: Copy, C: ColdStore<K, R>>(
    sheet: &mut Sheet,
    hot: &[HotRow<K, R>],
    memo: &mut [Notice<K>],
    ledger: &[Line<K>],
    cold: &mut C,
) -> Result<Swept, Refusal>
    ensures answer { (admits : ℕ → Bool) → told_swept result
        ≡ (sweep_rule K.Key.number (lent hot.now memo.old ledger.now)
        (store sheet.old hot.now memo.old ledger.now (C.ColdStore.entries cold.old)
        (C.ColdStore.limit cold.old) admits)).answer }
    ensures after { (admits : ℕ → Bool) → store sheet.new hot.now memo.new ledger.now
        (C.ColdStore.entries cold.new) (C.ColdStore.limit cold.new) admits
        ≡ (sweep_rule K.Key.number (lent hot.now memo.old ledger.now)
        (store sheet.old hot.now memo.old ledger.now (C.ColdStore.entries cold.old)
        (C.ColdStore.limit cold.old) admits)).after }
{
    if !sheet.is_lent(hot, memo, ledger) {
        return Err(Refusal::OutOfRange(Side::Mover));
    }
    let Some(hit) = first_due(sheet, hot, memo) else {
        return Ok(Swept::NoneDue);
    };
    match hit.it.kind.after(NoticeEvent::Empty) {
        None => {
            sheet.memo.used = take_out(memo, sheet.memo.used, hit.at);
            Ok(Swept::Gone)
        }
        Some(kind) => {
            empty_out(memo, cold, hit, kind);
            Ok(Swept::Emptied)
        }
    }
}
