ghost use Rattle.std.specs.Prelude.{◌≡◌, ℕ, ◌^◌, ◌<◌, nat_lt};

// A key means a whole number below 2^64, and keys are equal exactly when their numbers are.
pub trait Key: Copy {
    // the number that a key means
    ghost number: { Self → ℕ };

    // Tells the number.
    fn number(&self) -> u64
        ensures { result ≡ number self.now };

    ghost fits: { (a : Self) → number a < 2 ^ 64 };

    ghost same: { (a b : Self) → number a ≡ number b → a ≡ b };
}

// A key with one more question, which only the sorted cold store asks: the trait says it by that name, and not by `Ord`.
pub trait OrderedKey: Key {
    // Whether this key's number is smaller than the other's.
    fn is_below(&self, other: &Self) -> bool
        ensures { result ≡ nat_lt (Self.Key.number self.now) (Self.Key.number other.now) }
    {
        self.number() < other.number()
    }
}
