ghost use Rattle.std.specs.Prelude.{◌≡◌, ℕ, ◌<◌, false, length};
ghost use Rattle.filter.specs.Bloom.{places_of, bit_at, with_bit, in_bloom, with_number, in_bloom_with};

use crate::Filter;

// The three places of a number, each below 4,096.
// Not an array: each place has a rule of its own, and three lines say as much as a loop over them.
#[derive(Clone, Copy, Debug, PartialEq, Eq)]
pub struct ThreePlaces {
    pub first: usize,
    pub second: usize,
    pub third: usize,
}

// The number mod 4,096, its quotient by 4,096 mod 4,096, and the sum of both mod 4,096.
pub fn places(number: u64) -> ThreePlaces
    ensures { result ≡ places_of number }
{
    let first = (number % 4096) as usize;
    let second = (number / 4096 % 4096) as usize;
    ThreePlaces {
        first,
        second,
        third: (first + second) % 4096,
    }
}

// 4,096 bits, 64 to a word. A number is admitted when the bits of its three places are set.
#[derive(Drop)]
pub struct Bloom {
    words: [u64; 64],
}

fn is_set(words: &[u64; 64], place: usize) -> bool
    requires { place < 4096 }
    ensures { result ≡ bit_at words.now place }
{
    words[place / 64] >> (place % 64) & 1 == 1
}

fn set_bit(words: &mut [u64; 64], place: usize)
    requires { place < 4096 }
    ensures long { length words.old ≡ 64 }
    ensures words { words.new ≡ with_bit words.old place }
{
    words[place / 64] |= 1 << (place % 64);
}

impl Bloom {
    // No bit is set, so no number is admitted.
    pub fn new() -> Bloom
        ensures { (h : ℕ) → in_bloom result.words h ≡ false }
    {
        Bloom { words: [0; 64] }
    }

    // Sets the three bits of a number. Then exactly those numbers are admitted whose places are each set before or a place of `number`.
    pub fn mark(&mut self, number: u64)
        ensures words { self.new.words ≡ with_number self.old.words number }
        ensures admitted { (h : ℕ) → in_bloom self.new.words h ≡ in_bloom_with self.old.words number h }
    {
        let p = places(number);
        set_bit(&mut self.words, p.first);
        set_bit(&mut self.words, p.second);
        set_bit(&mut self.words, p.third);
    }
}

impl Filter for Bloom {
    ghost admitted = { λ f h. in_bloom f.words h };

    fn admits(&self, number: u64) -> bool {
        let p = places(number);
        is_set(&self.words, p.first)
            && is_set(&self.words, p.second)
            && is_set(&self.words, p.third)
    }

    fn add(&mut self, number: u64) {
        self.mark(number);
    }
}
