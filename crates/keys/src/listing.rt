ghost use Rattle.std.specs.Prelude.{ℕ, ◌^◌, ◌<◌};
ghost use Rattle.std.proofs.Math.Bridge.{le_prop};
ghost use Rattle.keys.specs.Ext.{same_record};

use crate::key::{Key, OrderedKey};

// The number of a listing of tickets. It means itself.
#[derive(Clone, Copy, Debug, PartialEq, Eq)]
pub struct Listing {
    pub id: u64,
    ghost fits: { id < 2 ^ 64 },
}

impl Key for Listing {
    ghost number = { λ k. k.id };

    ghost fits = { λ k. k.fits };

    ghost same = { λ a b e. same_record (λ (n : ℕ). n < 2 ^ 64) (λ n p. record { id = n; fits = p }) (λ n p q. le_prop p q) a.id b.id a.fits b.fits e };

    fn number(&self) -> u64 {
        self.id
    }
}

impl OrderedKey for Listing {}
