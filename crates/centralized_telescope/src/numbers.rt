// Small jobs: room on the stack, a number as a `usize`, a number out of bytes, and bytes copied into a buffer.
ghost use Rattle.std.specs.Prelude.{◌≡◌, ◌+◌, ◌^◌, ◌<◌, ◌≤◌, ◌++◌, length, take, drop};
ghost use Rattle.sampling.specs.core.BigEndian.{big_endian};

use sampling::number_of;

// Room for N values, each x. A function of its own: its caller's proof then sees a length, and not that many values.
pub fn room<T: Copy, const N: usize>(x: T) -> [T; N]
    ensures { N ≡ length result }
{
    [x; N]
}

// A number of a list, such as an end or a place, as a `usize`. By a call, since an `as` in its place doesn't say that the number is below
// 2^32, which sums of it ask.
pub fn wide(x: u32) -> usize
    ensures { (result ≡ x) × (result < 4294967296) }
{
    x as usize
}

// The number that the k bytes from `at` on make, the most significant first.
pub fn number(bytes: &[u8], at: usize, k: usize) -> u64
    requires { (at + k ≤ length bytes.now) × (k ≤ 8) }
    ensures { (result ≡ big_endian k (drop at bytes.now)) × (result < 256 ^ k) }
{
    let end = at + k;
    number_of(&bytes[at..end])
}

// Copies bytes to an offset of a buffer that has room for them.
pub fn copy_at(part: &[u8], at: usize, out: &mut [u8])
    requires { at + length part.now ≤ length out.old }
    ensures { out.new
        ≡ take at out.old ++ (part.now ++ drop (at + length part.now) out.old) }
{
    out[at..at + part.len()].copy_from_slice(part);
}
