ghost use Rattle.std.specs.Prelude.{◌≡◌, ◌≤◌, [], IfOk, vec_len, nat_lt};
ghost use Rattle.cold.specs.Cold.{below_by, is_of};
ghost use Rattle.cold.specs.New.{refused_limit};
ghost use Rattle.cold.specs.Sorted.{meant, table, place, seat};
ghost use Rattle.cold.specs.Few.{few_meant};

use crate::sorted::{Held, SortedStore};
use crate::store::{ColdRefusal, ColdStore, Found, NewStoreError};
use keys::key::OrderedKey;
use std::alloc::Global;

impl<K: OrderedKey, R> Held<K, R> {
    // Whether the entry comes before a key and tag. No comparison of tuples: a key has no `Ord`, and is asked its one more question.
    fn is_before(&self, key: &K, tag: u32) -> bool
        ensures { result ≡ below_by (K.Key.number self.now.key) self.now.tag (K.Key.number key.now) tag }
    {
        self.key.is_below(key) || self.key.number() == key.number() && self.tag < tag
    }

    // Whether the entry has a key and tag.
    fn is_of(&self, key: &K, tag: u32) -> bool
        ensures { result ≡ is_of (K.Key.number key.now) tag (meant K.Key.number self.now) }
    {
        self.key.number() == key.number() && self.tag == tag
    }
}

impl<K: OrderedKey, R: Copy> SortedStore<K, R> {
    // An empty store with room for `limit` entries. Refused by `Limit` exactly where the limit is above 1,048,576.
    pub fn new(heap: Global, limit: usize) -> Result<SortedStore<K, R>, NewStoreError>
        ensures refused { refused_limit result ≡ nat_lt 1048576 limit }
        ensures made { IfOk result (λ s. (table K.Key.number s.items.items ≡ []) × (s.limit ≡ limit)) }
    {
        if limit > 1048576 {
            return Err(NewStoreError::Limit);
        }
        let items = Vec::with_capacity(heap, limit)?;
        Ok(SortedStore { items, limit })
    }

    // How many entries come before a key and tag, by halving.
    fn place(&self, key: &K, tag: u32) -> usize
        ensures bound { result ≤ vec_len self.now.items }
        ensures value { result ≡ place (K.Key.number key.now) tag (table K.Key.number self.now.items.items) }
    {
        self.items.partition_point(|h| h.is_before(key, tag))
    }

    // The place of a key and tag, or the place where they would go in.
    fn seat(&self, key: &K, tag: u32) -> Result<usize, usize>
        ensures { result ≡ seat (K.Key.number key.now) tag (table K.Key.number self.now.items.items) }
    {
        let at = self.place(key, tag);
        match self.items.get(at) {
            Some(h) if h.is_of(key, tag) => Ok(at),
            _ => Err(at),
        }
    }
}

impl<K: OrderedKey, R: Copy> ColdStore<K, R> for SortedStore<K, R> {
    ghost entries = { λ s. table K.Key.number s.items.items };

    ghost limit = { λ s. s.limit };

    ghost few = { λ s. few_meant K.Key.number s.items.items s.items.ok.0 s.fits };

    ghost small = { λ s. s.small };

    ghost ordered = { λ s. s.ordered };

    fn put(&mut self, key: K, tag: u32, row: R) -> Result<(), ColdRefusal> {
        let Err(at) = self.seat(&key, tag) else {
            return Err(ColdRefusal::There);
        };
        let count = self.items.len();
        if count == self.limit {
            return Err(ColdRefusal::Full(count));
        }
        self.items.insert(at, Held { key, tag, row }).unwrap();
        Ok(())
    }

    fn find(&self, key: &K, tag: u32) -> Option<Found<R>> {
        match self.items.get(self.place(key, tag)) {
            Some(h) if h.key.number() == key.number() => Some(Found {
                tag: h.tag,
                row: h.row,
            }),
            _ => None,
        }
    }

    fn remove(&mut self, key: &K, tag: u32) -> bool {
        let Ok(at) = self.seat(key, tag) else {
            return false;
        };
        self.items.remove(at);
        true
    }
}
