// SHA-256 of FIPS 180-4, over byte strings that are absorbed one after the other.
ghost use Rattle.std.specs.Prelude.{◌≡◌, ℕ, ◌+◌, ◌-◌, ◌*◌, ◌/◌, ◌%◌, ◌^◌, ◌<◌, ◌≤◌, true, false, List, Err, ◌++◌, length, take, slice_index, slice_set};
ghost use Rattle.std.proofs.lemmas.List.Edits.{sets};
ghost use Rattle.sampling.specs.core.BigEndian.{bytes_of};
ghost use Rattle.sampling.specs.declared.sha256.State.{State};
ghost use Rattle.sampling.specs.core.Fips180.{◌⊞◌, ROTR, Ch, Maj, Σ₀, Σ₁, σ₀, σ₁, W, next_w, one_round, rounds, plus, compressed, word};
ghost use Rattle.sampling.specs.core.Fips180.{block, H₀, padding, padded, digest_of, sha256};
ghost use Rattle.sampling.specs.core.Hash.{max_hashed, hashed, hashed_by};
ghost use Rattle.sampling.specs.inner.HashInner.{AfterRounds, RoundsFrom};
ghost use Rattle.sampling.specs.inner.LastBlocksInner.{in_one_piece, in_two_blocks, hash_value_from};
ghost use Rattle.sampling.specs.later.Hasher.{new_hasher, absorb_bytes, too_long, absorbed, finished};

use crate::big_endian;
use crate::copying::copy_over;

// So many bytes are hashed at most: 2^29.
pub const MAX_HASHED: usize = 0x2000_0000;

// The hash value H, or the eight working variables a to h.
#[derive(Clone, Copy)]
pub struct State {
    pub a: u32,
    pub b: u32,
    pub c: u32,
    pub d: u32,
    pub e: u32,
    pub f: u32,
    pub g: u32,
    pub h: u32,
}

// What has been absorbed so far: the hash value after the whole blocks, the bytes of the block that is being filled, and
// how many bytes there were in all (over 2^29: too many).
#[derive(Clone, Copy)]
pub struct Hasher {
    pub state: State,
    pub block: [u8; 64],
    pub len: usize,
}

// What was to be hashed is over MAX_HASHED bytes.
#[derive(Clone, Copy, PartialEq, Eq, Debug)]
pub struct TooLong;

// Its number.
impl From<TooLong> for u32 {
    ghost from_gives = { λ refused number. number ≡ (hashed_by (Err refused)).0 };

    fn from(_: TooLong) -> u32 {
        9
    }
}

// ---- Functions on words (4.1.2): Ch, Maj, and Σ and σ as big and small sigma

// Addition modulo 2^32: the one place where words are added.
fn add(x: u32, y: u32) -> u32
    ensures { result ≡ x ⊞ y }
{
    std::num::wrapping_add_u32(x, y)
}

// ROTR^n(x) (3.2), as the standard writes it: the C of dist/ has no function of the library for it.
fn rotr(x: u32, n: u32) -> u32
    requires { (0 < n) × (n < 32) }
    ensures { result ≡ ROTR n x }
{
    (x >> n) | (x << (32 - n))
}

// The functions below take fewer operations than their definitions: WordLaws has why they are the same.

// x says of each bit whether it is y's or z's.
fn ch(x: u32, y: u32, z: u32) -> u32
    ensures { result ≡ Ch x y z }
{
    ((y ^ z) & x) ^ z
}

// y, but where x and z both differ from it. y ^ z is x ^ y of the round before, which the compiler keeps.
fn maj(x: u32, y: u32, z: u32) -> u32
    ensures { result ≡ Maj x y z }
{
    ((x ^ y) & (y ^ z)) ^ y
}

// 11 + 2 = 13 and 9 + 11 + 2 = 22.
fn big_sigma0(x: u32) -> u32
    ensures { result ≡ Σ₀ x }
{
    rotr(rotr(rotr(x, 9) ^ x, 11) ^ x, 2)
}

// 5 + 6 = 11 and 14 + 5 + 6 = 25.
fn big_sigma1(x: u32) -> u32
    ensures { result ≡ Σ₁ x }
{
    rotr(rotr(rotr(x, 14) ^ x, 5) ^ x, 6)
}

// 11 + 7 = 18.
fn small_sigma0(x: u32) -> u32
    ensures { result ≡ σ₀ x }
{
    rotr(rotr(x, 11) ^ x, 7) ^ (x >> 3)
}

// 2 + 17 = 19.
fn small_sigma1(x: u32) -> u32
    ensures { result ≡ σ₁ x }
{
    rotr(rotr(x, 2) ^ x, 17) ^ (x >> 10)
}

// ---- The hash computation (6.2.2)

// The constants (4.2.2).
const K256: [u32; 64] = [
    0x428a2f98, 0x71374491, 0xb5c0fbcf, 0xe9b5dba5, 0x3956c25b, 0x59f111f1, 0x923f82a4, 0xab1c5ed5,
    0xd807aa98, 0x12835b01, 0x243185be, 0x550c7dc3, 0x72be5d74, 0x80deb1fe, 0x9bdc06a7, 0xc19bf174,
    0xe49b69c1, 0xefbe4786, 0x0fc19dc6, 0x240ca1cc, 0x2de92c6f, 0x4a7484aa, 0x5cb0a9dc, 0x76f988da,
    0x983e5152, 0xa831c66d, 0xb00327c8, 0xbf597fc7, 0xc6e00bf3, 0xd5a79147, 0x06ca6351, 0x14292967,
    0x27b70a85, 0x2e1b2138, 0x4d2c6dfc, 0x53380d13, 0x650a7354, 0x766a0abb, 0x81c2c92e, 0x92722c85,
    0xa2bfe8a1, 0xa81a664b, 0xc24b8b70, 0xc76c51a3, 0xd192e819, 0xd6990624, 0xf40e3585, 0x106aa070,
    0x19a4c116, 0x1e376c08, 0x2748774c, 0x34b0bcb5, 0x391c0cb3, 0x4ed8aa4a, 0x5b9cca4f, 0x682e6ff3,
    0x748f82ee, 0x78a5636f, 0x84c87814, 0x8cc70208, 0x90befffa, 0xa4506ceb, 0xbef9a3f7, 0xc67178f2,
];

// The working variables after a round. The sum t1 begins with what is known first.
fn one_round(v: State, k: u32, w: u32) -> State
    ensures { result ≡ one_round v k w }
{
    let t1 = add(add(add(add(v.h, w), k), ch(v.e, v.f, v.g)), big_sigma1(v.e));
    let t2 = add(big_sigma0(v.a), maj(v.a, v.b, v.c));
    State {
        a: add(t1, t2),
        b: v.a,
        c: v.b,
        d: v.c,
        e: add(v.d, t1),
        f: v.e,
        g: v.f,
        h: v.g,
    }
}

// The word at t from the sixteen before it.
fn next_word(w: &[u32; 64], t: usize) -> u32
    requires { (16 ≤ t) × (t < 64) }
    ensures { (M : List ℕ) → result ≡ next_w M w.now t }
{
    add(
        add(add(w[t - 16], w[t - 7]), small_sigma0(w[t - 15])),
        small_sigma1(w[t - 2]),
    )
}

// The schedule's word at t: before 16 the block's, which starts at o, and then one that is MADE here, not ahead, so that its work fills
// the round's waits.
fn word_of<const MADE: bool>(w: &[u32; 64], s: &[u8], o: usize, t: usize) -> u32
    requires { (t < 64) × (MADE ≡ true → 16 ≤ t) × (MADE ≡ false → t < 16) × (o + 64 ≤ length s.now) }
    ensures { (h v : State) → AfterRounds h (block s.now o) t v w.now → result ≡ slice_index (W (block s.now o) 64) t }
{
    if MADE {
        next_word(w, t)
    } else {
        word_at(s, o + 4 * t)
    }
}

// The round t: its word takes the place of its constant. w has the schedule's words before t, the constants from t on.
fn step<const MADE: bool>(v: State, w: &mut [u32; 64], s: &[u8], o: usize, t: usize) -> State
    requires { (t < 64) × (MADE ≡ true → 16 ≤ t) × (MADE ≡ false → t < 16) × (o + 64 ≤ length s.now) }
    ensures { RoundsFrom (block s.now o) t (t + 1) v w.old result w.new }
{
    let x = word_of::<MADE>(w, s, o, t);
    let k = w[t];
    w[t] = x;
    one_round(v, k, x)
}

// Eight rounds in a row, which the compiler unrolls: each variable then stands in its own place again, and it moves none. Rounds taken one by
// one are 29 % more instructions.
fn eight_steps<const MADE: bool>(v: State, w: &mut [u32; 64], s: &[u8], o: usize, t: usize) -> State
    requires { (t + 8 ≤ 64) × (MADE ≡ true → 16 ≤ t) × (MADE ≡ false → t + 8 ≤ 16) × (o + 64 ≤ length s.now) }
    ensures { RoundsFrom (block s.now o) t (t + 8) v w.old result w.new }
{
    let mut u = v;
    for i in 0..8 {
        u = step::<MADE>(u, w, s, o, t + i);
    }
    u
}

// The rounds from `from` on, so many times eight.
fn rounds_from<const MADE: bool>(
    v: State,
    w: &mut [u32; 64],
    s: &[u8],
    o: usize,
    from: usize,
    eights: usize,
) -> State
    requires { (from + 8 * eights ≤ 64) × (MADE ≡ true → 16 ≤ from) × (MADE ≡ false → from + 8 * eights ≤ 16) × (o + 64 ≤ length s.now) }
    ensures { RoundsFrom (block s.now o) from (from + 8 * eights) v w.old result w.new }
{
    let mut u = v;
    for k in 0..eights {
        u = eight_steps::<MADE>(u, w, s, o, from + 8 * k);
    }
    u
}

// All rounds over the block at o. Eight in a row are called in one place each, and so inlined: the variables stay in registers. t is
// no constant there: w stays in memory and isn't spilled word by word.
fn all_rounds(h: State, s: &[u8], o: usize) -> State
    requires { o + 64 ≤ length s.now }
    ensures { result ≡ rounds h (W (block s.now o) 64) 64 }
{
    let mut w = K256;
    let v = rounds_from::<false>(h, &mut w, s, o, 0, 2);
    rounds_from::<true>(v, &mut w, s, o, 16, 6)
}

// ---- Bytes and words (3.1)

fn word_at(s: &[u8], i: usize) -> u32
    requires { i + 4 ≤ length s.now }
    ensures { result ≡ word s.now i }
{
    let end = i + 4;
    big_endian::number_of(&s[i..end]) as u32
}

// A word as a number to be written. By a call, an element's own bound needs no proof.
fn wide(x: u32) -> u64
    ensures { result ≡ x }
{
    x as u64
}

// ---- The hash value

impl State {
    // The initial hash value (5.3.3).
    fn initial() -> State
        ensures { result ≡ H₀ }
    {
        State {
            a: 0x6a09e667,
            b: 0xbb67ae85,
            c: 0x3c6ef372,
            d: 0xa54ff53a,
            e: 0x510e527f,
            f: 0x9b05688c,
            g: 0x1f83d9ab,
            h: 0x5be0cd19,
        }
    }

    // Step 4 (6.2.2): the working variables and the hash value, word by word.
    fn plus(self, s: State) -> State
        ensures { result ≡ plus self s }
    {
        State {
            a: add(self.a, s.a),
            b: add(self.b, s.b),
            c: add(self.c, s.c),
            d: add(self.d, s.d),
            e: add(self.e, s.e),
            f: add(self.f, s.f),
            g: add(self.g, s.g),
            h: add(self.h, s.h),
        }
    }

    // The hash value after the block at o, read in place.
    fn compress(self, s: &[u8], o: usize) -> State
        requires { o + 64 ≤ length s.now }
        ensures { result ≡ compressed self (block s.now o) }
    {
        all_rounds(self, s, o).plus(self)
    }

    // The eight words in bytes, one after the other.
    fn digest(self) -> [u8; 32]
        ensures { result ≡ digest_of self }
    {
        let words = [
            self.a, self.b, self.c, self.d, self.e, self.f, self.g, self.h,
        ];
        let mut d = [0u8; 32];
        for (n, word) in words.iter().enumerate() {
            big_endian::write_number(wide(*word), &mut d[4 * n..4 * n + 4]);
        }
        d
    }
}

// ---- The end of a message

// Where the length in bits stands behind the last `filled` bytes: at the end of the block that they are in, or, where its eight
// bytes and the bit 1 don't fit there any more, of the next.
fn length_at(filled: usize) -> usize
    requires { filled ≤ 119 }
    ensures { result ≡ (filled + 72) / 64 * 64 - 8 }
{
    if 56 <= filled {
        return 120;
    }
    56
}

// Blocks with s in their bytes from `at` on. By value: the compiler then sees that s doesn't overlap them, and the copy is a memcpy.
fn with_bytes<const N: usize>(blocks: [u8; N], at: usize, s: &[u8]) -> [u8; N]
    requires { at + length s.now ≤ N }
    ensures { result ≡ sets blocks.entry at s.now }
{
    let mut out = blocks;
    let all = &mut out[..];
    copy_over(s, &mut all[at..at + s.len()]);
    out
}

// Two blocks with the padding (5.1.1) of a message of len bytes behind the last `filled` of them, where zeros stand.
fn pad(m: [u8; 128], filled: usize, len: usize) -> [u8; 128]
    requires { (filled ≤ 119) × (len ≤ max_hashed) }
    ensures { result ≡ sets (slice_set m filled 128) ((filled + 72) / 64 * 64 - 8) (bytes_of 8 (8 * len)) }
{
    let mut out = m;
    out[filled] = 0x80;
    let bits = big_endian::eight_bytes(8 * (len as u64));
    with_bytes(out, length_at(filled), &bits)
}

// The first `filled` bytes of a block, the last of a message of len bytes, padded. What the block holds behind them isn't read:
// in a hasher made by hand it may be anything.
fn tail_of(block: [u8; 64], filled: usize, len: usize) -> [u8; 128]
    requires { (filled ≡ len % 64) × (len ≤ max_hashed) }
    ensures { result ≡ in_two_blocks (take filled block ++ padding len) }
{
    pad(with_bytes([0u8; 128], 0, &block[..filled]), filled, len)
}

// Four strings joined, padded.
fn joined(a: &[u8], b: &[u8], c: &[u8], d: &[u8]) -> [u8; 128]
    requires { length a.now + length b.now + length c.now + length d.now ≤ 119 }
    ensures { result ≡ in_two_blocks (padded (a.now ++ (b.now ++ (c.now ++ d.now)))) }
{
    let i = a.len();
    let j = i + b.len();
    let k = j + c.len();
    let n = k + d.len();
    // The second string goes first: where the first does, the compiler zeroes what is behind it alone, and so calls `memset`, which a
    // loader needn't have.
    let one = with_bytes([0u8; 128], i, b);
    let two = with_bytes(one, 0, a);
    let three = with_bytes(two, j, c);
    pad(with_bytes(three, k, d), n, n)
}

// The digest after the last `filled` bytes of a message, padded: one block, or two.
fn last_blocks(h: State, m: &[u8; 128], filled: usize) -> [u8; 32]
    requires { filled ≤ 119 }
    ensures { result ≡ digest_of (hash_value_from h m.now ((filled + 72) / 64)) }
{
    let mut s = h.compress(m, 0);
    if 56 <= filled {
        s = s.compress(m, 64);
    }
    s.digest()
}

// Whether strings of these lengths are joined in one piece: each is shorter than a block, so that none lies whole in one of them, and
// with the padding they are two blocks at most.
fn fits(a: usize, b: usize, c: usize, d: usize) -> bool
    ensures { result ≡ in_one_piece a b c d }
{
    if 64 <= a || 64 <= b || 64 <= c || 64 <= d {
        return false;
    }
    a + b + c + d <= 119
}

// ---- The calls

impl Hasher {
    // Nothing absorbed.
    pub fn new() -> Hasher
        ensures { result ≡ new_hasher }
    {
        Hasher {
            state: State::initial(),
            block: [0u8; 64],
            len: 0,
        }
    }

    // A hasher past the limit. It is the same whatever was absorbed, so that two strings leave what the two joined leave.
    fn too_long() -> Hasher
        ensures { result ≡ too_long }
    {
        Hasher {
            len: MAX_HASHED + 1,
            ..Hasher::new()
        }
    }

    // s, where it ends within the block that is being filled. The next is no case of this one: as one function the two take 2.0 % more
    // instructions over short strings, and the bar is that hashing takes no more than before (docs/BENCHMARKS.md, Instructions).
    fn absorb_part(self, s: &[u8]) -> Hasher
        requires { (self.len % 64 + length s.now < 64) × (self.len + length s.now < 2 ^ 62) }
        ensures { result ≡ absorb_bytes self s.now }
    {
        Hasher {
            state: self.state,
            block: with_bytes(self.block, self.len % 64, s),
            len: self.len + s.len(),
        }
    }

    // s, where it fills that block to its end. The next block is zeros, so that equal bytes absorbed leave equal hashers.
    fn absorb_end(self, s: &[u8]) -> Hasher
        requires { (self.len % 64 + length s.now ≡ 64) × (self.len + length s.now < 2 ^ 62) }
        ensures { result ≡ absorb_bytes self s.now }
    {
        let full = with_bytes(self.block, self.len % 64, s);
        Hasher {
            state: self.state.compress(&full, 0),
            block: [0u8; 64],
            len: self.len + s.len(),
        }
    }

    // s, where it is whole blocks, one at least, and none is being filled. Each is read in place, by where it starts in s: that is how
    // `block M o` has it.
    fn absorb_blocks(self, s: &[u8]) -> Hasher
        requires { (self.len % 64 ≡ 0) × (length s.now % 64 ≡ 0) × (0 < length s.now) × (self.len + length s.now < 2 ^ 62) }
        ensures { result ≡ absorb_bytes self s.now }
    {
        let mut state = self.state;
        for k in 0..s.len() / 64 {
            state = state.compress(s, 64 * k);
        }
        Hasher {
            state,
            block: [0u8; 64],
            len: self.len + s.len(),
        }
    }

    // s, where no block is being filled.
    fn absorb_aligned(self, s: &[u8]) -> Hasher
        requires { (self.len % 64 ≡ 0) × (self.len + length s.now < 2 ^ 62) }
        ensures { result ≡ absorb_bytes self s.now }
    {
        if s.len() < 64 {
            return self.absorb_part(s);
        }
        let n = s.len() / 64 * 64;
        self.absorb_blocks(&s[..n]).absorb_part(&s[n..])
    }

    // s, whatever it holds.
    fn absorb_all(self, s: &[u8]) -> Hasher
        requires { self.len + length s.now < 2 ^ 62 }
        ensures { result ≡ absorb_bytes self s.now }
    {
        let filled = self.len % 64;
        if filled == 0 {
            return self.absorb_aligned(s);
        }
        let left = 64 - filled;
        if s.len() < left {
            return self.absorb_part(s);
        }
        self.absorb_end(&s[..left]).absorb_aligned(&s[left..])
    }

    // One string more.
    pub fn absorb(self, s: &[u8]) -> Hasher
        ensures { result ≡ absorbed self s.now }
    {
        let len = self.len;
        if MAX_HASHED < len || MAX_HASHED - len < s.len() {
            return Hasher::too_long();
        }
        self.absorb_all(s)
    }

    // The digest of all that was absorbed.
    pub fn finish(self) -> Result<[u8; 32], TooLong>
        ensures { hashed_by result ≡ finished self }
    {
        let len = self.len;
        if MAX_HASHED < len {
            return Err(TooLong);
        }
        let state = self.state;
        let block = self.block;
        let filled = len % 64;
        let m = tail_of(block, filled, len);
        Ok(last_blocks(state, &m, filled))
    }
}

// SHA-256 of four strings that make two blocks at most, joined in one piece.
fn hash_short(a: &[u8], b: &[u8], c: &[u8], d: &[u8]) -> [u8; 32]
    requires { length a.now + length b.now + length c.now + length d.now ≤ 119 }
    ensures { result ≡ sha256 (a.now ++ (b.now ++ (c.now ++ d.now))) }
{
    let m = joined(a, b, c, d);
    last_blocks(State::initial(), &m, a.len() + b.len() + c.len() + d.len())
}

// SHA-256 of four strings joined.
pub fn sha256(a: &[u8], b: &[u8], c: &[u8], d: &[u8]) -> Result<[u8; 32], TooLong>
    ensures { hashed_by result ≡ hashed (a.now ++ (b.now ++ (c.now ++ d.now))) }
{
    if fits(a.len(), b.len(), c.len(), d.len()) {
        return Ok(hash_short(a, b, c, d));
    }
    Hasher::new()
        .absorb(a)
        .absorb(b)
        .absorb(c)
        .absorb(d)
        .finish()
}
