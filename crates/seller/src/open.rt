ghost use Rattle.std.specs.Prelude.{◌≡◌};
ghost use Rattle.rules.specs.Opening.{in_range};
ghost use Rattle.seller.specs.Opens.{Opens};
ghost use Rattle.law.specs.Law.{Law};

use keys::key::Key;
use rules::answers::{Refusal, Side};
use rules::limits::{LAST_STAMP, LAST_TAG};
use rules::sheet::{Room, Session, Sheet};

// Whether the numbers of an opening are within their ranges.
fn is_in_range(
    hot_length: usize,
    memo_length: usize,
    ledger_length: usize,
    clock: u32,
    last_tag: u32,
) -> bool
    ensures { result ≡ in_range (record { hots = hot_length; memos = memo_length; lines = ledger_length }) clock last_tag }
{
    (1..=65536).contains(&hot_length)
        && (1..=8192).contains(&memo_length)
        && (1..=4096).contains(&ledger_length)
        && (1..=LAST_STAMP).contains(&clock)
        && last_tag <= LAST_TAG
}

// A new sheet: over any tables it is an empty store with all sessions closed. Numbers out of range are refused.
pub fn open<K: Key, R: Copy>(
    hot_length: usize,
    memo_length: usize,
    ledger_length: usize,
    clock: u32,
    last_tag: u32,
) -> Result<Sheet, Refusal>
    ensures sheet { Opens K R (record { hots = hot_length; memos = memo_length; lines = ledger_length }) clock last_tag result }
    ensures law { Law K R K.Key.number }
{
    if !is_in_range(hot_length, memo_length, ledger_length, clock, last_tag) {
        return Err(Refusal::OutOfRange(Side::Seller));
    }
    Ok(Sheet {
        sessions: [Session { reading: None }; 64],
        clock,
        last_tag,
        finds: 0,
        hot: Room::empty(hot_length),
        memo: Room::empty(memo_length),
        ledger: Room::empty(ledger_length),
    })
}
