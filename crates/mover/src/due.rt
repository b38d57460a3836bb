ghost use Rattle.std.specs.Prelude.{◌≡◌, take};
ghost use Rattle.slots.specs.Lists.{any, hit};
ghost use Rattle.rules.specs.Notices.{due_kind};
ghost use Rattle.rules.specs.Moving.{row_bears};
ghost use Rattle.mover.specs.Due.{due_by};

use keys::key::Key;
use marks::rows::bears;
use rules::sheet::Sheet;
use rules::tables::{HotRow, Kind, Notice};
use slots::hit::Hit;
use slots::search::{any_of, listed};

// Whether a notice is due. Only N asks whether a hot row bears its tag, so only N has the hot table searched.
fn is_notice_due<K: Key, R: Copy>(
    hot: &[HotRow<K, R>],
    used: usize,
    notice: &Notice<K>,
    horizon: u32,
) -> bool
    ensures { result ≡ due_kind notice.now.kind notice.now.begin notice.now.end horizon
        (any (row_bears notice.now.tag) (take used hot.now)) }
{
    let borne = notice.kind == Kind::N && any_of(hot, used, |row| bears(row, notice.tag));
    notice.is_due(horizon, borne)
}

// The first notice that is due, with its place.
pub fn first_due<K: Key, R: Copy>(
    sheet: &Sheet,
    hot: &[HotRow<K, R>],
    memo: &[Notice<K>],
) -> Option<Hit<Notice<K>>>
    ensures { result ≡ hit (due_by sheet.now (take sheet.now.hot.used hot.now))
        (take sheet.now.memo.used memo.now) }
{
    let horizon = sheet.horizon();
    let notices = listed(memo, sheet.memo.used);
    for (at, notice) in notices.iter().enumerate() {
        if is_notice_due(hot, sheet.hot.used, notice, horizon) {
            return Some(Hit { at, it: *notice });
        }
    }
    None
}
