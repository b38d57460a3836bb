ghost use Rattle.std.specs.Prelude.{◌≡◌, ℕ, false};
ghost use Rattle.filter.specs.Band.{lows, highs, in_band, lows_with, highs_with, in_band_with};

use crate::Filter;

// The lowest and the highest number of one remainder.
#[derive(Clone, Copy, Debug, PartialEq, Eq)]
struct Ends {
    low: u64,
    high: u64,
}

// For each remainder mod 64 the lowest and the highest number added. A number is admitted when it lies between those of its remainder, ends included.
#[derive(Drop)]
pub struct Band {
    ends: [Ends; 64],
}

impl Band {
    // The lowest is above the highest everywhere, so no number is admitted: an Option of the ends would be one more test in `admits`.
    pub fn new() -> Band
        ensures { (h : ℕ) → in_band (lows result.ends) (highs result.ends) h ≡ false }
    {
        Band {
            ends: [Ends {
                low: u64::MAX,
                high: 0,
            }; 64],
        }
    }

    // Moves the ends of the number's remainder out to it. Of the other remainders the same numbers are admitted as before.
    pub fn widen(&mut self, number: u64)
        ensures lows { lows self.new.ends ≡ lows_with (lows self.old.ends) number }
        ensures highs { highs self.new.ends ≡ highs_with (highs self.old.ends) number }
        ensures admitted { (h : ℕ)
            → in_band (lows self.new.ends) (highs self.new.ends) h
            ≡ in_band_with (lows self.old.ends) (highs self.old.ends) number h }
    {
        let at = (number % 64) as usize;
        let Ends { low, high } = self.ends[at];
        self.ends[at] = Ends {
            low: low.min(number),
            high: high.max(number),
        };
    }
}

impl Filter for Band {
    ghost admitted = { λ f h. in_band (lows f.ends) (highs f.ends) h };

    fn admits(&self, number: u64) -> bool {
        let Ends { low, high } = self.ends[(number % 64) as usize];
        low <= number && number <= high
    }

    fn add(&mut self, number: u64) {
        self.widen(number);
    }
}
