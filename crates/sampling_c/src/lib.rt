// The sampler and the converter as a library for C: each export is the call of `sampling` of its name, and promises what that promises.
#![tactic(auto)]

ghost use Rattle.std.specs.Prelude.{◌≡◌};
ghost use Rattle.sampling.specs.core.Exports.{exported_uniform, exported_bernoulli};
ghost use Rattle.sampling.specs.later.Threshold.{exported_threshold};

// 0 with the value drawn in the 8 bytes of `out`, the highest first; otherwise `out` is untouched and the answer is
// 1: no draw; 7: n is 0; 8: h's length isn't 16, or `out`'s isn't 8.
#[unsafe(no_mangle)]
pub extern "C" fn alba_sample_uniform(h: &[u8], n: u64, out: &mut [u8]) -> u32
    ensures { (result, out.new) ≡ exported_uniform h.now n out.old }
{
    sampling::alba_sample_uniform(h, n, out)
}

// 1: yes; 0: no; 8: h's length isn't 16. X is passed as its high word, then its low.
#[unsafe(no_mangle)]
pub extern "C" fn alba_sample_bernoulli(h: &[u8], x_high: u64, x_low: u64) -> u32
    ensures { result ≡ exported_bernoulli h.now (record { hi = x_high; lo = x_low }) }
{
    sampling::alba_sample_bernoulli(h, x_high, x_low)
}

// 0 with the halves of q's X in the two numbers of `out`, the high one first; otherwise `out` is untouched and the answer is
// 8: `out` isn't two numbers; 3: q is no number from 0 to 1.
#[unsafe(no_mangle)]
pub extern "C" fn alba_threshold(q: f64, out: &mut [u64]) -> u32
    ensures { (result, out.new) ≡ exported_threshold q out.old }
{
    sampling::alba_threshold(q, out)
}
