// The size of a proof from the security figures.
ghost use Rattle.std.specs.Prelude.{◌≡◌, ◌*◌, ◌^◌, ◌<◌, ◌≤◌, length};
ghost use Rattle.centralized_telescope.specs.later.ProofSize.{figures_out, SizeIs, size_by};
ghost use Rattle.centralized_telescope.specs.inner.Digits.{number_in, SmallestOrNone};
ghost use Rattle.centralized_telescope.specs.core.Params.{max_proof_size};

use crate::digits::{double, is_below, times};
use crate::errors::Refusal;
use crate::params::{MAX_PROOF_SIZE, MAX_SET_SIZE};

// The highest soundness and the highest completeness.
const MAX_SOUNDNESS: u64 = 256;

const MAX_FIGURE: u64 = 1_024;

// So many digits hold every number that is compared: they stay below 2^15651, and the digits hold what is below 2^16384.
const DIGITS: usize = 512;

// Whether a figure is outside its range: soundness s, completeness c, set size n, and the lower bound f.
#[tactic(auto, unfolding(crate::specs::later::ProofSize::figures_out, crate::specs::core::Params::not_one_to))]
fn is_figure_out(s: u64, c: u64, n: u64, f: u64) -> bool
    ensures { result ≡ figures_out s c n f }
{
    s > MAX_SOUNDNESS || c < 1 || c > MAX_FIGURE || n < 2 || n > MAX_SET_SIZE || f < 1 || f >= n
}

// The smallest u from 1 to 1,024 at which right * f^u isn't above left * n^u, if there is one. The two numbers grow with u.
fn smallest(n: u32, f: u32, left: &mut [u32], right: &mut [u32]) -> Option<u64>
    requires { (1 ≤ n) × (1 ≤ f) × (length left.old ≡ length right.old)
        × (number_in left.old * n ^ max_proof_size < (2 ^ 32) ^ length left.old)
        × (number_in right.old * f ^ max_proof_size < (2 ^ 32) ^ length right.old) }
    ensures { SmallestOrNone (number_in left.old) n (number_in right.old) f result }
{
    for u in 1..=MAX_PROOF_SIZE {
        times(left, n);
        times(right, f);
        if !is_below(left, right) {
            return Some(u);
        }
    }
    None
}

// The smallest proof size for soundness s, completeness c, a set of n elements and the lower bound f to be shown; or the first refusal.
// All is compared in whole numbers.
pub fn proof_size(s: u64, c: u64, n: u64, f: u64) -> Result<u64, Refusal>
    ensures { SizeIs s c n f (size_by result).0 (size_by result).1 }
{
    if is_figure_out(s, c, n, f) {
        return Err(Refusal::Figures);
    }
    let mut left = [0u32; DIGITS];
    left[0] = 1_442_695;
    let mut right = [0u32; DIGITS];
    right[0] = 1_000_000;
    times(&mut right, 32 * c as u32);
    double(&mut right, s);
    smallest(n as u32, f as u32, &mut left, &mut right).ok_or(Refusal::NoSize)
}
