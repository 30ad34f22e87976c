// A message hashed in eight ways: seven cuts into four strings, and byte by byte.
ghost use Rattle.std.specs.Prelude.{◌≤◌, length, slice_index};

use sampling::sha256::{Hasher, TooLong, sha256};

// A number up to `most` that goes with x.
fn up_to(x: usize, most: usize) -> usize
    ensures { result ≤ most }
{
    if x <= most { x } else { x % (most + 1) }
}

// Cuts at these three places, or at the end where the message ends before.
fn cuts_at(places: [usize; 3], len: usize) -> [usize; 3]
    ensures { (slice_index result 0 ≤ slice_index result 1) × (slice_index result 1 ≤ slice_index result 2) × (slice_index result 2 ≤ len) }
{
    let c = places[2].min(len);
    let b = places[1].min(c);
    [places[0].min(b), b, c]
}

// Cuts that go with the line's number. It is scrambled first: where line n has a message of n - 1 bytes, n itself would
// always give the same cut.
fn cuts_by(number: usize, len: usize) -> [usize; 3]
    ensures { (slice_index result 0 ≤ slice_index result 1) × (slice_index result 1 ≤ slice_index result 2) × (slice_index result 2 ≤ len) }
{
    let x = number % 4096 * 40503 % 65536;
    let c = up_to(x, len);
    let b = up_to(x / 5, c);
    [up_to(x / 11, b), b, c]
}

// The cuts of a way, of which there are seven. A string that holds all, before and after empty ones; quarters; single bytes; the edges of
// the first block; whole blocks; and cuts that vary.
fn cuts_of(way: usize, number: usize, len: usize) -> [usize; 3]
    ensures { (slice_index result 0 ≤ slice_index result 1) × (slice_index result 1 ≤ slice_index result 2) × (slice_index result 2 ≤ len) }
{
    match way {
        0 => cuts_at([len, len, len], len),
        1 => cuts_at([0, 0, 0], len),
        2 => cuts_at([len / 4, len / 2, len / 2 + len / 4], len),
        3 => cuts_at([1, 2, 3], len),
        4 => cuts_at([63, 64, 65], len),
        5 => cuts_at([64, 128, 192], len),
        _ => cuts_by(number, len),
    }
}

// The hash of a message that is cut at these three places into four strings.
fn hash_cut(message: &[u8], cuts: [usize; 3]) -> Result<[u8; 32], TooLong>
    requires { (slice_index cuts 0 ≤ slice_index cuts 1) × (slice_index cuts 1 ≤ slice_index cuts 2)
        × (slice_index cuts 2 ≤ length message.now) }
{
    let [a, b, c] = cuts;
    sha256(&message[..a], &message[a..b], &message[b..c], &message[c..])
}

fn hash_by_bytes(message: &[u8]) -> Result<[u8; 32], TooLong> {
    let mut h = Hasher::new();
    for byte in message.chunks(1) {
        h = h.absorb(byte);
    }
    h.finish()
}

// In how many of the eight ways the message has the digest wanted.
pub fn equal_ways(message: &[u8], wanted: [u8; 32], number: usize) -> usize
    ensures { result ≤ 8 }
{
    let equal = (0..7)
        .filter(|way| hash_cut(message, cuts_of(*way, number, message.len())) == Ok(wanted))
        .count();
    equal + usize::from(hash_by_bytes(message) == Ok(wanted))
}
