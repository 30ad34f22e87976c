// The settings, their limits, and the settings of the small case.

ghost use Rattle.std.specs.Prelude.{◌≡◌, ◌^◌, IfOk, false};
ghost use Rattle.sampling.specs.later.Threshold.{outside, xOf};
ghost use Rattle.centralized_telescope.specs.core.Params.{settings_of, not_one_to, limit_broken, checked};
ghost use Rattle.centralized_telescope.specs.core.Refusals.{answer_number};
ghost use Rattle.centralized_telescope.specs.later.SmallCase.{proof_size_out, completeness_out, floor, ceil, small_settings, small_case};
ghost use Rattle.centralized_telescope.specs.later.SmallCase.{small_case_by};

use crate::errors::Refusal;
use crate::lawful::Lawful;
use sampling::U128;

// The limits of the settings.
pub const MAX_SET_SIZE: u64 = 32_768;

pub const MAX_PROOF_SIZE: u64 = 1_024;

pub const MAX_RETRIES: u64 = 65_535;

pub const MAX_SEARCH_WIDTH: u64 = 0xffff_ffff;

pub const MAX_DFS_BOUND: u64 = 0x1_0000_0000_0000;

// The small case's completeness is this at most.
const MAX_COMPLETENESS: f64 = 65535.0;

// What prover and verifier are told.
#[derive(Clone, Copy)]
pub struct Params {
    pub set_size: u64,
    pub proof_size: u64,
    pub max_retries: u64,
    pub search_width: u64,
    pub dfs_bound: u64,
    // X: a last hash passes where its number is below it
    pub x: U128,
}

// The settings from seven numbers, X by its high word and its low.
pub fn settings_of(
    set_size: u64,
    proof_size: u64,
    max_retries: u64,
    search_width: u64,
    dfs_bound: u64,
    x_high: u64,
    x_low: u64,
) -> Params
    ensures { result ≡ settings_of set_size proof_size max_retries search_width dfs_bound x_high x_low }
{
    Params {
        set_size,
        proof_size,
        max_retries,
        search_width,
        dfs_bound,
        x: U128 {
            hi: x_high,
            lo: x_low,
        },
    }
}

// The small case's settings: every one but set_size.
#[derive(Clone, Copy)]
pub struct SmallSettings {
    pub proof_size: u64,
    pub max_retries: u64,
    pub search_width: u64,
    pub dfs_bound: u64,
    pub x: U128,
}

// Whether n is not 1 to hi.
#[tactic(auto, unfolding(crate::specs::core::Params::not_one_to))]
fn is_not_one_to(hi: u64, n: u64) -> bool
    ensures { result ≡ not_one_to hi n }
{
    n < 1 || n > hi
}

// Whether a limit of another whole number is broken.
#[tactic(auto, unfolding(crate::specs::core::Params::limit_broken))]
fn is_limit_broken(p: Params) -> bool
    ensures { result ≡ limit_broken p }
{
    p.proof_size > MAX_PROOF_SIZE
        || p.max_retries > MAX_RETRIES
        || p.search_width > MAX_SEARCH_WIDTH
        || p.dfs_bound > MAX_DFS_BOUND
}

// The first refusal in the table's order, if any. Every X is lawful.
#[tactic(auto, using(crate::specs::laws::ParamsLaws::check_told))]
pub fn check_params(p: Params) -> Result<(), Refusal>
    ensures { answer_number result ≡ checked p }
{
    if is_not_one_to(MAX_SET_SIZE, p.set_size) {
        return Err(Refusal::SetSize);
    }
    if is_limit_broken(p) {
        return Err(Refusal::Limit);
    }
    Ok(())
}

// The settings themselves, where they are lawful.
pub fn lawful(p: Params) -> Result<Lawful, Refusal>
    ensures number { answer_number result ≡ checked p }
    ensures same { IfOk result (λ lawful. lawful.params ≡ p) }
{
    check_params(p)?;
    Ok(Lawful { params: p })
}

// The double nearest to ln 12.
const LN_12: f64 = 2.48490664978800031023;

// The greatest whole number that isn't above x. Up to 2^52 it is the truncation, and both it and the next whole number are doubles.
#[tactic(auto, using(crate::proofs::Whole::floor_told))]
fn floor_of(x: f64) -> u64
    requires { outside (2 ^ 52) x ≡ false }
    ensures { result ≡ floor x }
{
    std::num::truncating_f64_to_u64(x)
}

// The least whole number that isn't below x: its floor, or one more where the floor is below it.
fn ceil_of(x: f64) -> u64
    requires { outside (2 ^ 52) x ≡ false }
    ensures { result ≡ ceil x }
{
    let t = floor_of(x);
    if (t as f64) < x {
        return t + 1;
    }
    t
}

// Whether c is no completeness: no number from 0 to 65,535. -0.0 counts as 0.
fn is_completeness_out(c: f64) -> bool
    ensures { result ≡ completeness_out c }
{
    c.is_nan() || c < 0.0 || c > MAX_COMPLETENESS
}

// X of q, or 0 where the converter refuses q. The small case's q is never refused (SmallCaseLaws).
fn x_of(q: f64) -> U128
    ensures { result ≡ xOf q }
{
    sampling::threshold_of(q).unwrap_or(U128 { hi: 0, lo: 0 })
}

// The small case's settings, each operation in the order of the source; X is that of the source's q.
fn small_settings(u: u64, c: f64) -> SmallSettings
    requires { (proof_size_out u ≡ false) × (completeness_out c ≡ false) }
    ensures { result ≡ small_settings u c }
{
    let size = u as f64;
    let max_retries = ceil_of(c);
    let search_width = ceil_of((32.0 * LN_12) * size);
    let d = search_width as f64;
    let q = (2.0 * LN_12) * (1.0 / d);
    let dfs_bound = floor_of(((8.0 * (1.0 / LN_12)) * (size + 1.0)) * d);
    SmallSettings {
        proof_size: u,
        max_retries,
        search_width,
        dfs_bound,
        x: x_of(q),
    }
}

// The small case's settings for proofs of u elements with completeness c, or the first refusal in the table's order.
#[tactic(auto, using(crate::specs::laws::SmallCaseLaws::small_case_told))]
pub fn param_small_case(u: u64, c: f64) -> Result<SmallSettings, Refusal>
    ensures { small_case_by result ≡ small_case u c }
{
    if is_not_one_to(MAX_PROOF_SIZE, u) {
        return Err(Refusal::ProofSize);
    }
    if is_completeness_out(c) {
        return Err(Refusal::Completeness);
    }
    Ok(small_settings(u, c))
}
