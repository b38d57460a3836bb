ghost use Rattle.std.specs.Prelude.{◌≡◌, ℕ, ◌≤◌, true, List, length};
ghost use Rattle.cold.specs.Cold.{Entry, put_answer, put_after, found, is_there, removed_after, in_order};
ghost use Rattle.cold.specs.declared.store.NewStoreError.TheVariants.{Memory};

use keys::key::Key;
use std::alloc::AllocError;

// What a find answers.
#[derive(Clone, Copy, Debug, PartialEq, Eq)]
pub struct Found<R> {
    pub tag: u32,
    pub row: R,
}

// Why a put is refused: the key and tag are there already, or the store is full, with its count.
#[derive(Clone, Copy, Debug, PartialEq, Eq)]
pub enum ColdRefusal {
    There,
    Full(usize),
}

// Why a new store is refused: its limit is above 1,048,576, or there is no memory.
#[derive(Clone, Copy, Debug, PartialEq, Eq)]
pub enum NewStoreError {
    Limit,
    Memory,
}

impl From<AllocError> for NewStoreError {
    ghost from_gives = { λ _ e. e ≡ Memory };

    fn from(_: AllocError) -> NewStoreError {
        NewStoreError::Memory
    }
}

// A set of entries, each a key, a tag and a row, with no key and tag twice.
// Key and tag stay two parameters: in a find the tag is where to begin, and not a part of a name.
pub trait ColdStore<K: Key, R: Copy> {
    // the entries by rising key number, then tag
    ghost entries: { Self → List (Entry R) };

    // how many entries may be there at most
    ghost limit: { Self → ℕ };

    // Puts an entry in. Refused where its key and tag are there, else where the count is the limit; a refusal changes nothing.
    fn put(&mut self, key: K, tag: u32, row: R) -> Result<(), ColdRefusal>
        ensures answer { result ≡ put_answer (limit self.old) (entries self.old) (K.Key.number key) tag }
        ensures after { entries self.new
            ≡ put_after (limit self.old) (entries self.old) (K.Key.number key) tag row }
        ensures limit { limit self.new ≡ limit self.old };

    // The entry of the key with the smallest tag not below `tag`.
    fn find(&self, key: &K, tag: u32) -> Option<Found<R>>
        ensures { result ≡ found (entries self.now) (K.Key.number key.now) tag };

    // Takes the entry of a key and tag out, and tells whether it was there.
    fn remove(&mut self, key: &K, tag: u32) -> bool
        ensures answer { result ≡ is_there (K.Key.number key.now) tag (entries self.old) }
        ensures after { entries self.new ≡ removed_after (entries self.old) (K.Key.number key.now) tag }
        ensures limit { limit self.new ≡ limit self.old };

    ghost few: { (s : Self) → length (entries s) ≤ limit s };

    ghost small: { (s : Self) → limit s ≤ 1048576 };

    ghost ordered: { (s : Self) → in_order (entries s) ≡ true };
}
