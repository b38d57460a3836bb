ghost use Rattle.std.specs.Prelude.{◌≡◌, ℕ, Bool, List};
ghost use Rattle.cold.specs.Cold.{Entry};
ghost use Rattle.rules.specs.Stores.{store, lent, opened_at};
ghost use Rattle.rules.specs.Selling.{begin_rule};
ghost use Rattle.rules.specs.Told.{told_done};

use keys::key::Key;
use rules::answers::{Refusal, Side};
use rules::sheet::{Mode, Reading, Session, Sheet};
use rules::tables::{HotRow, Line, Notice};

fn open_entry(entry: &mut Session, mode: Mode, time: u32)
    ensures { entry.new ≡ opened_at mode time }
{
    entry.reading = Some(Reading { mode, time });
}

// Opens the session, with the clock as read time.
pub fn begin<K: Key, R: Copy>(
    sheet: &mut Sheet,
    hot: &[HotRow<K, R>],
    memo: &[Notice<K>],
    ledger: &[Line<K>],
    session: u32,
    mode: Mode,
) -> Result<(), Refusal>
    ensures answer { (es : List (Entry R)) (limit : ℕ) (admits : ℕ → Bool) → told_done result
        ≡ (begin_rule (lent hot.now memo.now ledger.now)
        (store sheet.old hot.now memo.now ledger.now es limit admits) session mode).answer }
    ensures after { (es : List (Entry R)) (limit : ℕ) (admits : ℕ → Bool)
        → store sheet.new hot.now memo.now ledger.now es limit admits
        ≡ (begin_rule (lent hot.now memo.now ledger.now)
        (store sheet.old hot.now memo.now ledger.now es limit admits) session mode).after }
{
    if !sheet.is_lent(hot, memo, ledger) {
        return Err(Refusal::OutOfRange(Side::Seller));
    }
    if sheet.reading(session)?.is_some() {
        return Err(Refusal::AlreadyOpen);
    }
    let time = sheet.clock;
    open_entry(&mut sheet.sessions[session as usize], mode, time);
    Ok(())
}
