ghost use Rattle.std.specs.Prelude.{◌≡◌, ℕ, ◌*◌, ◌/◌, ltb, [], IfOk, ◌≢◌, nat_lt, slice_index};
ghost use Rattle.cold.specs.New.{refused_limit};
ghost use Rattle.blocks.specs.Blocks.{seat_of, free_of, bytes_answer, put_bytes, removed_bytes};
ghost use Rattle.blocks.specs.Cells.{entries_of};
ghost use Rattle.blocks.specs.Few.{few_cells};

use crate::block::{fill, tag_of};
use crate::store::BlockStore;
use cold::store::{ColdRefusal, ColdStore, Found, NewStoreError};
use keys::key::Key;
use keys::packing::Packed;
use std::alloc::Global;
use std::marker::PhantomData;

impl<K: Key, R: Packed> BlockStore<K, R> {
    // An empty store with `limit` places, all free. Refused by `Limit` exactly where the limit is above 1,048,576.
    pub fn new(heap: Global, limit: usize) -> Result<BlockStore<K, R>, NewStoreError>
        ensures refused { refused_limit result ≡ nat_lt 1048576 limit }
        ensures made { IfOk result (λ s. (entries_of R.Packed.unpacked s.limit s.bytes.items ≡ []) × (s.limit ≡ limit)) }
    {
        if limit > 1048576 {
            return Err(NewStoreError::Limit);
        }
        let bytes = vec![in heap; 0; limit * 32]?;
        Ok(BlockStore {
            bytes,
            limit,
            of: PhantomData,
        })
    }

    // Puts an entry in at the first free place, into the 32 bytes of that place and no others.
    #[tactic(auto, using(crate::specs::Cut::length_cut, crate::proofs::FirstPlace::prefix_turned))]
    pub fn put_entry(&mut self, key: &K, tag: u32, row: &R) -> Result<(), ColdRefusal>
        ensures answer { result
            ≡ bytes_answer self.old.limit self.old.bytes.items (K.Key.number key.now) tag }
        ensures bytes { self.new.bytes.items
            ≡ put_bytes self.old.limit self.old.bytes.items (K.Key.number key.now) tag
            (R.Packed.packed row.now) }
        ensures others { (k : ℕ)
            → (k / 32 ≢ free_of self.old.limit self.old.bytes.items)
            → slice_index self.new.bytes.items k
            ≡ slice_index self.old.bytes.items k }
        ensures limit { self.new.limit ≡ self.old.limit }
    {
        let number = key.number();
        if self.seat(number, tag).is_some() {
            return Err(ColdRefusal::There);
        }
        let Some(place) = self.free() else {
            return Err(ColdRefusal::Full(self.limit));
        };
        let start = place * 32;
        fill(&mut self.bytes[start..start + 32], number, tag, row);
        Ok(())
    }

    // Clears byte 12 of the place of a key and tag and no other byte, and tells whether there is one.
    #[tactic(auto, using(crate::specs::Cut::length_cut))]
    pub fn remove_entry(&mut self, key: &K, tag: u32) -> bool
        ensures answer { result
            ≡ ltb (seat_of self.old.limit self.old.bytes.items (K.Key.number key.now) tag)
            self.old.limit }
        ensures bytes { self.new.bytes.items
            ≡ removed_bytes self.old.limit self.old.bytes.items (K.Key.number key.now) tag }
        ensures limit { self.new.limit ≡ self.old.limit }
    {
        let Some(place) = self.seat(key.number(), tag) else {
            return false;
        };
        self.bytes[place * 32 + 12] = 0;
        true
    }
}

impl<K: Key, R: Packed> ColdStore<K, R> for BlockStore<K, R> {
    ghost entries = { λ s. entries_of R.Packed.unpacked s.limit s.bytes.items };

    ghost limit = { λ s. s.limit };

    ghost few = { λ s. few_cells R.Packed.unpacked s.limit s.bytes.items };

    ghost small = { λ s. s.small };

    ghost ordered = { λ s. s.ordered };

    fn put(&mut self, key: K, tag: u32, row: R) -> Result<(), ColdRefusal> {
        self.put_entry(&key, tag, &row)
    }

    fn find(&self, key: &K, tag: u32) -> Option<Found<R>> {
        let block = self.nearest(key.number(), tag)?;
        Some(Found {
            tag: tag_of(block),
            row: R::unpack(&block[16..32]),
        })
    }

    fn remove(&mut self, key: &K, tag: u32) -> bool {
        self.remove_entry(key, tag)
    }
}
