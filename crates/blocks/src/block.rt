ghost use Rattle.std.specs.Prelude.{◌≡◌, length};
ghost use Rattle.blocks.specs.Blocks.{entry_bytes, is_used, number_of, tag_of, has_key, has_own};

use keys::bytes::{read_low, write_low};
use keys::packing::Packed;

// Writes an entry into its own 32 bytes.
pub(crate) fn fill<R: Packed>(block: &mut [u8], number: u64, tag: u32, row: &R)
    requires { length block.old ≡ 32 }
    ensures { block.new ≡ entry_bytes number tag (R.Packed.packed row.now) }
{
    write_low(&mut block[0..8], number);
    write_low(&mut block[8..12], u64::from(tag));
    write_low(&mut block[12..16], 1);
    let _ = row.pack(&mut block[16..32]);
}

// Whether a block is used.
pub(crate) fn used(block: &[u8; 32]) -> bool
    ensures { result ≡ is_used block.now }
{
    block[12] == 1
}

// The key number of a block.
pub(crate) fn number_of(block: &[u8; 32]) -> u64
    ensures { result ≡ number_of block.now }
{
    read_low(&block[0..8])
}

// The tag of a block.
pub(crate) fn tag_of(block: &[u8; 32]) -> u32
    ensures { result ≡ tag_of block.now }
{
    read_low(&block[8..12]) as u32
}

// Whether a block holds the entry of a key number and tag.
pub(crate) fn has_key(block: &[u8; 32], number: u64, tag: u32) -> bool
    ensures { result ≡ has_key number tag block.now }
{
    used(block) && number_of(block) == number && tag_of(block) == tag
}

// Whether a block holds an entry of a key number with a tag not below `tag`.
pub(crate) fn has_own(block: &[u8; 32], number: u64, tag: u32) -> bool
    ensures { result ≡ has_own number tag block.now }
{
    used(block) && number_of(block) == number && tag <= tag_of(block)
}
