ghost use Rattle.std.specs.Prelude.{◌≡◌, ◌^◌, ◌<◌, ◌≤◌, length, take, drop};
ghost use Rattle.keys.specs.Bytes.{low_bytes, from_low, low};

// Fills `out` with the low bytes of a number, lowest first.
// Not by `to_le_bytes`: `out` may have any length, and a part beyond eight bytes would need its zeros from elsewhere.
pub fn write_low(out: &mut [u8], value: u64)
    ensures { out.new ≡ low_bytes (length out.old) value }
{
    let mut rest = value;
    for b in out.iter_mut() {
        *b = (rest % 256) as u8;
        rest /= 256;
    }
}

// At most n bytes from a place on: what there is of them.
pub fn part<'a>(bytes: &'a [u8], at: usize, n: usize) -> &'a [u8]
    ensures { result.now ≡ take n (drop at bytes.now) }
{
    let rest = bytes.get(at..).unwrap_or(&[]);
    rest.get(..n).unwrap_or(rest)
}

// The number that at most eight bytes write, lowest first.
fn read_all(bytes: &[u8]) -> u64
    requires { length bytes.now ≤ 8 }
    ensures value { result ≡ from_low bytes.now }
    ensures bound { result < 256 ^ length bytes.now }
{
    let mut eight = [0; 8];
    eight[..bytes.len()].copy_from_slice(bytes);
    u64::from_le_bytes(eight)
}

// The number that the first eight bytes write, lowest first; bytes that are missing count as zero.
pub fn read_low(bytes: &[u8]) -> u64
    ensures value { result ≡ from_low (take 8 bytes.now) }
    ensures bound { result < 256 ^ length (take 8 bytes.now) }
{
    read_all(part(bytes, 0, 8))
}

// The number of n bytes from a place on, where bytes that are missing count as zero.
pub(crate) fn low_at(bytes: &[u8], at: usize, n: usize) -> u64
    requires { n ≤ 8 }
    ensures value { result ≡ low n (drop at bytes.now) }
    ensures bound { result < 256 ^ n }
{
    read_all(part(bytes, at, n))
}
