// Settings, by the security figures, by the small case or each by itself.
ghost use Rattle.std.specs.Prelude.{◌≡◌, ℕ, ◌≤◌, IfSome, Float};
ghost use Rattle.std.specs.Range.{range_inclusive_start, range_inclusive_end};
ghost use Rattle.arguments.specs.declared.settings.PastLimits.TheVariants.{Said};
ghost use Rattle.centralized_telescope.specs.later.ProofSize.{Smallest};
ghost use Rattle.arguments.specs.Settings.{AreWithin, IsSmallCase, SettingsAreWithin};

use crate::argument::Argument;
use crate::numbers::whole_double;
use centralized_telescope::{Params, param_small_case, proof_size};
use outcomes::unless_refused;
use std::ops::RangeInclusive;
use std::rt::Env;

// What becomes of a setting past its limits.
#[derive(Clone, Copy)]
pub enum PastLimits {
    // it is wrong as an argument, with a message that names the limits
    Said,
    // it is read, and the library refuses it by number
    Read,
}

// How the settings stand among a program's arguments.
#[derive(Clone, Copy)]
pub struct Reading {
    // which argument is the first of them
    pub first: usize,
    pub past_limits: PastLimits,
}

// The security figures.
#[derive(Clone, Copy)]
pub struct Figures {
    pub soundness: u64,
    pub completeness: u64,
    pub set_size: u64,
    pub lower_bound: u64,
}

// The small case's settings for proofs of u elements with completeness c, and a set size. Five fields are copied, here alone: a method of
// the library's for it would copy them as well.
fn of_small_case(rt: &impl Print, set_size: u64, u: u64, c: f64) -> Option<Params>
    ensures { IfSome result (IsSmallCase set_size u c) }
{
    let s = unless_refused(rt, param_small_case(u, c))?;
    Some(Params {
        set_size,
        proof_size: s.proof_size,
        max_retries: s.max_retries,
        search_width: s.search_width,
        dfs_bound: s.dfs_bound,
        x: s.x,
    })
}

impl Reading {
    // The argument that stands k behind the first. The greatest number, where there is no such sum, is no argument's.
    fn argument(self, k: usize, name: &str) -> Argument<'_> {
        Argument {
            place: self.first.saturating_add(k),
            name,
        }
    }

    // A whole number k behind the first, with its limits.
    fn whole(
        self,
        rt: &(impl Env + Print),
        k: usize,
        name: &str,
        limits: RangeInclusive<u64>,
    ) -> Option<u64>
        ensures { self.past_limits ≡ Said → IfSome result (λ n. (range_inclusive_start limits ≤ n) × (n ≤ range_inclusive_end limits)) }
    {
        match self.past_limits {
            PastLimits::Said => self.argument(k, name).whole_within(rt, limits),
            PastLimits::Read => self.argument(k, name).whole(rt),
        }
    }

    fn completeness(self, rt: &(impl Env + Print), k: usize) -> Option<f64> {
        match self.past_limits {
            PastLimits::Said => self.argument(k, "C").completeness_within(rt),
            PastLimits::Read => self.argument(k, "C").completeness(rt),
        }
    }

    // SET_SIZE U C: the small case's settings for proofs of U elements with completeness C.
    pub fn small_case(self, rt: &(impl Env + Print)) -> Option<Params>
        ensures { IfSome result (λ p. (u : ℕ) × (c : Float) × IsSmallCase p.set_size u c p) }
    {
        let set_size = self.whole(rt, 0, "SET_SIZE", 1..=32768)?;
        let u = self.whole(rt, 1, "U", 1..=1024)?;
        let c = self.completeness(rt, 2)?;
        of_small_case(rt, set_size, u, c)
    }

    // S C N F: soundness, completeness, set size and the lower bound to be shown, which is below the set size.
    pub fn security_figures(self, rt: &(impl Env + Print)) -> Option<Figures>
        ensures { self.past_limits ≡ Said → IfSome result AreWithin }
    {
        let soundness = self.whole(rt, 0, "S", 0..=256)?;
        let completeness = self.whole(rt, 1, "C", 1..=1024)?;
        let set_size = self.whole(rt, 2, "N", 2..=32768)?;
        let lower_bound = self.whole(rt, 3, "F", 1..=set_size.saturating_sub(1))?;
        Some(Figures {
            soundness,
            completeness,
            set_size,
            lower_bound,
        })
    }

    // SET_SIZE PROOF_SIZE MAX_RETRIES SEARCH_WIDTH DFS_BOUND X.
    pub fn each_by_itself(self, rt: &(impl Env + Print)) -> Option<Params>
        ensures { self.past_limits ≡ Said → IfSome result SettingsAreWithin }
    {
        let set_size = self.whole(rt, 0, "SET_SIZE", 1..=32768)?;
        let proof_size = self.whole(rt, 1, "PROOF_SIZE", 0..=1024)?;
        let max_retries = self.whole(rt, 2, "MAX_RETRIES", 0..=65535)?;
        let search_width = self.whole(rt, 3, "SEARCH_WIDTH", 0..=0xffff_ffff)?;
        let dfs_bound = self.whole(rt, 4, "DFS_BOUND", 0..=0x1_0000_0000_0000)?;
        let x = self.argument(5, "X").threshold(rt)?;
        Some(Params {
            set_size,
            proof_size,
            max_retries,
            search_width,
            dfs_bound,
            x,
        })
    }
}

impl Figures {
    // The small case's settings for the smallest proof size that these figures allow.
    pub fn settings(self, rt: &impl Print) -> Option<Params>
        ensures { IfSome result (λ p. (u : ℕ) × (c : Float)
            × Smallest self.soundness self.completeness self.set_size self.lower_bound u × IsSmallCase self.set_size u c p) }
    {
        let size = proof_size(
            self.soundness,
            self.completeness,
            self.set_size,
            self.lower_bound,
        );
        let u = unless_refused(rt, size)?;
        of_small_case(rt, self.set_size, u, whole_double(self.completeness))
    }
}

// Says settings, one after the other.
pub fn say_settings(rt: &impl Print, p: Params) {
    let Params {
        set_size,
        proof_size,
        max_retries,
        search_width,
        dfs_bound,
        x,
    } = p;
    let (high, low) = (x.hi, x.lo);
    let _ = print!(rt;
        "settings: set size {set_size}, proof size {proof_size}, tries up to {max_retries}"
    );
    let _ = println!(rt;
        ", search width {search_width}, step bound {dfs_bound}, X {high:016x}{low:016x}"
    );
}
