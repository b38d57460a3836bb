ghost use Rattle.std.specs.Prelude.{ℕ, ◌+◌, ◌*◌, ◌^◌, ◌<◌};
ghost use Rattle.keys.specs.Ext.{same_record, two_orders};
ghost use Rattle.keys.specs.CaseNumber.{case_fits, case_parts_same};

use crate::key::{Key, OrderedKey};

// The key of a help case: whose it is, and which of the seller's cases. It means seller × 65,536 + serial.
#[derive(Clone, Copy, Debug, PartialEq, Eq)]
pub struct CaseKey {
    pub seller: u32,
    pub serial: u16,
    ghost fits: { (seller < 2 ^ 32) × (serial < 2 ^ 16) },
}

impl Key for CaseKey {
    ghost number = { λ k. k.seller * 65536 + k.serial };

    ghost fits = { λ k. case_fits k.seller k.serial k.fits.0 k.fits.1 };

    ghost same = { λ a b e.
        same_record (λ (t : ℕ × ℕ). (t.0 < 2 ^ 32) × (t.1 < 2 ^ 16)) (λ t p. record { seller = t.0; serial = t.1; fits = p }) two_orders
        (a.seller, a.serial) (b.seller, b.serial) a.fits b.fits
        (case_parts_same a.seller b.seller a.serial b.serial a.fits.1 b.fits.1 e) };

    fn number(&self) -> u64 {
        u64::from(self.seller) * 65536 + u64::from(self.serial)
    }
}

impl OrderedKey for CaseKey {}
