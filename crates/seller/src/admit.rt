ghost use Rattle.std.specs.Prelude.{◌≡◌};
ghost use Rattle.rules.specs.Stores.{lent};
ghost use Rattle.scan.specs.Bare.{bare_of};
ghost use Rattle.seller.specs.Admitted.{admitted};

use keys::key::Key;
use rules::answers::{Refusal, Side};
use rules::sheet::Reading;
use scan::tables::Tables;

// What the session was begun with, or the refusal: other lengths than the opening's, no such session, or one that is not open.
pub(crate) fn admit<K: Key, R: Copy>(
    tables: &Tables<'_, K, R>,
    session: u32,
) -> Result<Reading, Refusal>
    ensures { result ≡ admitted (lent tables.now.hot.now tables.now.memo.now tables.now.ledger.now)
        (bare_of tables.now) session }
{
    let sheet = tables.sheet;
    if !sheet.is_lent(tables.hot, tables.memo, tables.ledger) {
        return Err(Refusal::OutOfRange(Side::Seller));
    }
    sheet.reading(session)?.ok_or(Refusal::NotOpen)
}
