#![tactic(auto)]

ghost use Rattle.std.specs.Prelude.{◌≡◌, ℕ, Bool, true};

pub mod band;
pub mod bloom;

// A set of key numbers that only grows. It may hold more numbers than were added, and never fewer.
pub trait Filter {
    // whether a number is in the set
    ghost admitted: { Self → ℕ → Bool };

    fn admits(&self, number: u64) -> bool
        ensures { result ≡ admitted self.now number };

    fn add(&mut self, number: u64)
        ensures has { admitted self.new number ≡ true }
        ensures keeps { (h : ℕ) → admitted self.old h ≡ true → admitted self.new h ≡ true };
}
