ghost use Rattle.std.specs.Prelude.{◌≡◌, ◌≤◌, true, vec_len, vec_capacity};
ghost use Rattle.cold.specs.Cold.{in_order};
ghost use Rattle.cold.specs.Sorted.{table};

use keys::key::OrderedKey;

// An entry of the table.
#[derive(Clone, Copy, Debug, PartialEq, Eq)]
pub struct Held<K, R> {
    pub key: K,
    pub tag: u32,
    pub row: R,
}

// A table of entries by rising key number, then tag. All its memory is reserved when it is made.
#[derive(Drop)]
pub struct SortedStore<K: OrderedKey, R: Copy> {
    pub(crate) items: Vec<Held<K, R>>,
    pub(crate) limit: usize,
    ghost fits: { vec_len items ≤ limit },
    ghost roomy: { limit ≤ vec_capacity items },
    ghost small: { limit ≤ 1048576 },
    ghost ordered: { in_order (table K.Key.number items.items) ≡ true },
}
