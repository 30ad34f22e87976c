// Sampler and converter as C and Rust call them: h, the draw's bytes and X's two words are lent slices, and the answer is a number. 7 and 3
// stand here as numbers, and not by the `From` of their errors: tried, and the C of dist/ was longer by a function and a struct for each.

ghost use Rattle.std.specs.Prelude.{◌≡◌, length};
ghost use Rattle.sampling.specs.core.Exports.{exported_uniform, exported_bernoulli};
ghost use Rattle.sampling.specs.later.Threshold.{exported_threshold};

use crate::big_endian;
use crate::copying::copy_over;
use crate::sample::{U128, sample_bernoulli, sample_uniform, threshold_of};

// The 16 bytes lent, by value.
fn seed_of(h: &[u8]) -> [u8; 16]
    requires { length h.now ≡ 16 }
    ensures { result ≡ h.now }
{
    let mut seed = [0u8; 16];
    copy_over(h, &mut seed);
    seed
}

// 0 with the value drawn in the 8 bytes of `out`, the highest first; otherwise `out` is untouched and the answer is
// 1: no draw; 7: n is 0; 8: h's length isn't 16, or `out`'s isn't 8.
pub fn alba_sample_uniform(h: &[u8], n: u64, out: &mut [u8]) -> u32
    ensures { (result, out.new) ≡ exported_uniform h.now n out.old }
{
    if n == 0 {
        return 7;
    }
    if h.len() != 16 || out.len() != 8 {
        return 8;
    }
    match sample_uniform(seed_of(h), n) {
        Ok(Some(v)) => {
            big_endian::write_number(v, out);
            0
        }
        Ok(None) => 1,
        Err(_) => 7,
    }
}

// 1: yes; 0: no; 8: h's length isn't 16. X is passed as its high word, then its low.
pub fn alba_sample_bernoulli(h: &[u8], x_high: u64, x_low: u64) -> u32
    ensures { result ≡ exported_bernoulli h.now (record { hi = x_high; lo = x_low }) }
{
    if h.len() != 16 {
        return 8;
    }
    let x = U128 {
        hi: x_high,
        lo: x_low,
    };
    if sample_bernoulli(seed_of(h), x) {
        return 1;
    }
    0
}

// 0 with the halves of q's X in the two numbers of `out`, the high one first; otherwise `out` is untouched and the answer is
// 8: `out` isn't two numbers; 3: q is no number from 0 to 1.
pub fn alba_threshold(q: f64, out: &mut [u64]) -> u32
    ensures { (result, out.new) ≡ exported_threshold q out.old }
{
    if out.len() != 2 {
        return 8;
    }
    let Ok(x) = threshold_of(q) else {
        return 3;
    };
    out[0] = x.hi;
    out[1] = x.lo;
    0
}
