ghost use Rattle.std.specs.Prelude.{◌≡◌, ◌≤◌, true, not, position, count_by, All, Any, IfSome, IsNone};
ghost use Rattle.blocks.specs.Blocks.{cut, is_used, tag_of, has_key, has_own};

use crate::block::{has_key, has_own, tag_of, used};
use crate::store::BlockStore;
use keys::key::Key;
use keys::packing::Packed;

impl<K: Key, R: Packed> BlockStore<K, R> {
    // The blocks of all places.
    pub(crate) fn blocks(&self) -> &[[u8; 32]]
        ensures { result.now ≡ cut 32 self.now.limit self.now.bytes.items }
    {
        self.bytes.as_chunks().0
    }

    // The place of a key number and tag.
    pub(crate) fn seat(&self, number: u64, tag: u32) -> Option<usize>
        ensures { result ≡ position (has_key number tag) (cut 32 self.now.limit self.now.bytes.items) }
    {
        self.blocks().iter().position(|b| has_key(b, number, tag))
    }

    // The first free place.
    pub(crate) fn free(&self) -> Option<usize>
        ensures { result ≡ position (λ b. not (is_used b)) (cut 32 self.now.limit self.now.bytes.items) }
    {
        self.blocks().iter().position(|b| !used(b))
    }

    // Of the blocks that hold an entry of a key number with a tag not below `tag`, the one with the smallest tag.
    pub(crate) fn nearest(&self, number: u64, tag: u32) -> Option<&[u8; 32]>
        ensures none { IsNone result → count_by (has_own number tag) (cut 32 self.now.limit self.now.bytes.items) ≡ 0 }
        ensures one { IfSome result (λ b. Any (λ c. c ≡ b.now) (cut 32 self.now.limit self.now.bytes.items)) }
        ensures own { IfSome result (λ b. has_own number tag b.now ≡ true) }
        ensures least { IfSome result (λ b. All (λ c. has_own number tag c ≡ true → tag_of b.now ≤ tag_of c) (cut 32 self.now.limit self.now.bytes.items)) }
    {
        self.blocks()
            .iter()
            .filter(|b| has_own(b, number, tag))
            .min_by_key(|b| tag_of(b))
    }
}
