// The sampler: a number below n, and a yes or no, from 16 bytes of a hash. Two u64 stand for a u128.

ghost use Rattle.std.specs.Prelude.{◌≡◌, ◌+◌, ◌-◌, ◌*◌, ◌%◌, ◌^◌, ◌<◌, ◌≤◌, true, false, Err};
ghost use Rattle.sampling.specs.core.BigEndian.{big_endian};
ghost use Rattle.sampling.specs.core.Sample.{is_power, mod_not_power, draw_by, uniform, uniform_by, bernoulli, value_of};
ghost use Rattle.sampling.specs.later.Threshold.{outside_unit, threshold, converted, converted_by};

use crate::big_endian::number_of;

// A number of 128 bits: hi * 2^64 + lo. The order of the fields is that of the numbers.
#[derive(Clone, Copy, PartialEq, Eq, PartialOrd, Ord)]
pub struct U128 {
    pub hi: u64,
    pub lo: u64,
}

// No number is below 0: there is none to draw.
#[derive(Clone, Copy, PartialEq, Eq, Debug)]
pub struct EmptyRange;

// Its number.
impl From<EmptyRange> for u32 {
    ghost from_gives = { λ refused number. number ≡ (uniform_by (Err refused)).0 };

    fn from(_: EmptyRange) -> u32 {
        7
    }
}

// A q that is no number from 0 to 1.
#[derive(Clone, Copy, PartialEq, Eq, Debug)]
pub struct NotProbability;

// Its number.
impl From<NotProbability> for u32 {
    ghost from_gives = { λ refused number. number ≡ (converted_by (Err refused)).0 };

    fn from(_: NotProbability) -> u32 {
        3
    }
}

// The 16 bytes as one number: its high half is that of the first 8.
fn u128_of(h: [u8; 16]) -> U128
    ensures { (result.hi ≡ big_endian 8 h) × (value_of result ≡ big_endian 16 h) }
{
    let hi = number_of(&h[..8]);
    let lo = number_of(&h[8..]);
    U128 { hi, lo }
}

// Whether n is a power of two: whether its highest bit is all of it. Written out: the C of dist/ has no function of the library for it.
fn is_power_of_two(n: u64) -> bool
    requires { 0 < n }
    ensures { result ≡ is_power 64 n }
{
    n == 1u64 << (63 - u64::leading_zeros(n))
}

// The first 8 bytes modulo a power of two: the bits below its one.
fn mod_power_of_2(first: u64, n: u64) -> u64
    requires { is_power 64 n ≡ true }
    ensures { result ≡ first % n }
{
    first & (n - 1)
}

// a + b modulo n, with no sum that wraps. Either way it is one addition or subtraction: the compiler then takes no branch.
fn add_mod(a: u64, b: u64, n: u64) -> u64
    requires { (a < n) × (b < n) }
    ensures { result ≡ (a + b) % n }
{
    let room = n - a;
    if b < room {
        return a + b;
    }
    b - room
}

// i modulo any n: the high half's remainder doubled 64 times, and the low half's added.
fn mod_by_doubling(i: U128, n: u64) -> u64
    requires { 0 < n }
    ensures { result ≡ value_of i % n }
{
    let mut high = i.hi % n;
    for _k in 0..64_u32 {
        high = add_mod(high, high, n);
    }
    add_mod(high, i.lo % n, n)
}

// i modulo an n of at most 2^32: long division, by digits of 32 bits.
fn mod_by_halves(i: U128, n: u64) -> u64
    requires { (0 < n) × (n ≤ 2 ^ 32) }
    ensures { result ≡ value_of i % n }
{
    let first = i.hi % n;
    let second = (first * 0x1_0000_0000 + i.lo / 0x1_0000_0000) % n;
    (second * 0x1_0000_0000 + i.lo % 0x1_0000_0000) % n
}

// i modulo n.
fn mod_u128(i: U128, n: u64) -> u64
    requires { 0 < n }
    ensures { result ≡ value_of i % n }
{
    if n <= 0x1_0000_0000 {
        return mod_by_halves(i, n);
    }
    mod_by_doubling(i, n)
}

// i modulo n, unless i is D * n or more. With m the remainder of 2^128 - 1, D * n is 2^128 - 1 - m: only an i
// whose high half is full, and whose low half is within m of full, comes to it.
fn mod_not_power_of_2(i: U128, n: u64) -> Option<u64>
    requires { 0 < n }
    ensures { draw_by result ≡ mod_not_power (value_of i) n }
{
    if i.hi == 0xffff_ffff_ffff_ffff {
        let m = mod_u128(
            U128 {
                hi: 0xffff_ffff_ffff_ffff,
                lo: 0xffff_ffff_ffff_ffff,
            },
            n,
        );
        if 0xffff_ffff_ffff_ffff - i.lo <= m {
            return None;
        }
    }
    Some(mod_u128(i, n))
}

// A number below n, or no draw.
pub fn sample_uniform(h: [u8; 16], n: u64) -> Result<Option<u64>, EmptyRange>
    ensures { uniform_by result ≡ uniform h n }
{
    if n == 0 {
        return Err(EmptyRange);
    }
    let i = u128_of(h);
    if is_power_of_two(n) {
        return Ok(Some(mod_power_of_2(i.hi, n)));
    }
    Ok(mod_not_power_of_2(i, n))
}

// Whether q is no probability: no number from 0 to 1. -0.0 counts as 0.
fn is_outside_unit(q: f64) -> bool
    ensures { result ≡ outside_unit q }
{
    q.is_nan() || q < 0.0 || q > 1.0
}

// X of q, exactly: floor(q * 2^128), at most 2^128 - 1. q is digits * 2^(exponent - 1075), so q * 2^128 is digits * 2^(exponent - 947),
// with digits of 53 bits. By the exponent: up to 894 it is less than 1, a subnormal q too, and below 884 the shift would be 64 or more; up
// to 947 it fits the low half; from 1011 on its low half is 0; at 1023 q is 1.
fn unit_threshold(q: f64) -> U128
    requires { outside_unit q ≡ false }
    ensures { value_of result ≡ threshold q }
{
    let bits: u64 = f64::to_bits(q);
    let exponent: u64 = bits / 0x10_0000_0000_0000 % 2048;
    let digits: u64 = 0x10_0000_0000_0000 + bits % 0x10_0000_0000_0000;
    if exponent < 884 {
        return U128 { hi: 0, lo: 0 };
    }
    if exponent <= 947 {
        return U128 {
            hi: 0,
            lo: digits >> (947 - exponent),
        };
    }
    if exponent < 1011 {
        return U128 {
            hi: digits >> (1011 - exponent),
            lo: digits << (exponent - 947),
        };
    }
    if exponent < 1023 {
        return U128 {
            hi: digits << (exponent - 1011),
            lo: 0,
        };
    }
    U128 {
        hi: 0xffff_ffff_ffff_ffff,
        lo: 0xffff_ffff_ffff_ffff,
    }
}

// The converter: X of the probability q, a number of 128 bits that a hash must stay below.
pub fn threshold_of(q: f64) -> Result<U128, NotProbability>
    ensures { converted_by result ≡ converted q }
{
    if is_outside_unit(q) {
        return Err(NotProbability);
    }
    Ok(unit_threshold(q))
}

// Yes where the 16 bytes, as one number, are below X. Every X is lawful.
pub fn sample_bernoulli(h: [u8; 16], x: U128) -> bool
    ensures { result ≡ bernoulli h (value_of x) }
{
    u128_of(h) < x
}
