ghost use Rattle.std.specs.Prelude.{◌≡◌};
ghost use Rattle.rules.specs.Moving.{movable, row_bears};

use keys::key::Key;
use rules::tables::{HotRow, MoveMark};

// Whether the row is the key's and may move: a stamp as begin, and an open end.
pub fn is_movable<K: Key, R>(row: &HotRow<K, R>, number: u64) -> bool
    ensures { result ≡ movable K.Key.number number row.now }
{
    row.key.number() == number && row.begin.stamp().is_some() && row.end.is_none()
}

// Whether the row bears the tag, chosen or copied. One look at the mark: a sweep asks it of each hot row for each pending notice.
pub fn bears<K, R>(row: &HotRow<K, R>, tag: u32) -> bool
    ensures { result ≡ row_bears tag row.now }
{
    match row.mark {
        MoveMark::Unmoved => false,
        MoveMark::Chosen(borne) | MoveMark::Copied(borne) => borne == tag,
    }
}
