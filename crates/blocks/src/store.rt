ghost use Rattle.std.specs.Prelude.{◌≡◌, ◌*◌, ◌≤◌, true, vec_len};
ghost use Rattle.cold.specs.Lists.{all};
ghost use Rattle.cold.specs.Cold.{in_order};
ghost use Rattle.blocks.specs.Blocks.{cut, is_tidy};
ghost use Rattle.blocks.specs.Cells.{entries_of};

use keys::key::Key;
use keys::packing::Packed;
use std::marker::PhantomData;

// Entries as bytes, 32 to a place. All its memory is reserved when it is made. The bytes are one `Vec`, and no entries: a put lends the
// 32 of its place to be written, and the packer the middle of them.
#[derive(Drop)]
pub struct BlockStore<K: Key, R: Packed> {
    pub(crate) bytes: Vec<u8>,
    pub(crate) limit: usize,
    pub(crate) of: PhantomData<(K, R)>,
    ghost long: { vec_len bytes ≡ 32 * limit },
    ghost small: { limit ≤ 1048576 },
    ghost tidy: { all is_tidy (cut 32 limit bytes.items) ≡ true },
    ghost ordered: { in_order (entries_of R.Packed.unpacked limit bytes.items) ≡ true },
}
