// NIST's long example: a million times the letter a.
ghost use Rattle.std.specs.Prelude.{◌≡◌, ◌≤◌, length};

use sampling::sha256::{Hasher, TooLong, sha256};

const DIGEST: [u8; 32] = [
    0xcd, 0xc7, 0x6e, 0x5c, 0x99, 0x14, 0xfb, 0x92, 0x81, 0xa1, 0xc7, 0xe2, 0x84, 0xd7, 0x3e, 0x67,
    0xf1, 0x80, 0x9a, 0x48, 0xa4, 0x97, 0x20, 0x0e, 0x04, 0x6d, 0x39, 0xcc, 0xc7, 0x11, 0x2c, 0xd0,
];

// A function of its own: its caller's proof then sees a length, and not that many bytes.
fn quarter_of_it() -> [u8; 250000]
    ensures { 250000 ≡ length result }
{
    [b'a'; 250000]
}

fn hash_quarters() -> Result<[u8; 32], TooLong> {
    let quarter = quarter_of_it();
    sha256(&quarter, &quarter, &quarter, &quarter)
}

// The first thousand odd numbers, 1 to 1999, add up to a million.
fn hash_odd_pieces() -> Result<[u8; 32], TooLong> {
    let letters = [b'a'; 2000];
    let mut h = Hasher::new();
    for size in (1..2000).step_by(2) {
        h = h.absorb(&letters[..size]);
    }
    h.finish()
}

// How many of the two ways to hash it give the digest.
pub fn equal() -> usize
    ensures { result ≤ 2 }
{
    usize::from(hash_quarters() == Ok(DIGEST)) + usize::from(hash_odd_pieces() == Ok(DIGEST))
}
