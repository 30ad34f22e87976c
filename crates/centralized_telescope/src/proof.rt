// The verifier: the chain of a proof's elements is followed, and judged.
ghost use Rattle.std.specs.Prelude.{◌≡◌, ◌∷◌, Err, length};
ghost use Rattle.centralized_telescope.specs.inner.Held.{element_read, option_of};
ghost use Rattle.centralized_telescope.specs.core.Verifier.{follow, last_hash, yes_on, judged, verdict_by};
ghost use Rattle.centralized_telescope.specs.inner.Following.{ElementList, followed, hash_of, counts_number};

use crate::errors::Refusal;
use crate::listed::Listed;
use crate::lists::Element;
use crate::params::Params;
use crate::round::{
    RetryCounter, Round, SearchCounter, bin_of, next_hash, proof_hash, round_of, start_hash,
};
use std::error::Error;
use std::fmt;

// Why the verifier doesn't accept a proof.
#[derive(Clone, Copy, PartialEq, Eq, Debug)]
pub enum Rejection {
    // the list's length isn't proof_size
    IncorrectNumberElements,
    // a counter isn't below its limit
    InvalidParameters,
    // the elements make no chain that passes
    InvalidProof,
    // the settings are refused, or the list of the proof's elements
    Refused(Refusal),
}

impl From<Refusal> for Rejection {
    ghost use Rattle.centralized_telescope.specs.declared.proof.Rejection.TheVariants.{Refused};

    ghost from_gives = { λ k rejection. rejection ≡ Refused k };

    fn from(k: Refusal) -> Rejection {
        Rejection::Refused(k)
    }
}

// The number of a rejection.
impl From<Rejection> for u32 {
    ghost from_gives = { λ rejection number. number ≡ verdict_by (Err rejection) };

    fn from(rejection: Rejection) -> u32 {
        match rejection {
            Rejection::IncorrectNumberElements => 20,
            Rejection::InvalidParameters => 21,
            Rejection::InvalidProof => 22,
            Rejection::Refused(k) => u32::from(k),
        }
    }
}

// The number of an answer of the verifier: 0 where it accepts. READING and PROVED name this call, and a Result has no impl of ours.
pub fn verdict_number(v: Result<(), Rejection>) -> u32
    ensures { result ≡ verdict_by v }
{
    match v {
        Ok(()) => 0,
        Err(rejection) => u32::from(rejection),
    }
}

// What a rejection means.
impl fmt::Display for Rejection {
    fn fmt<W: fmt::Write>(&self, f: &mut fmt::Formatter<W>) -> fmt::Result {
        f.write_str(match self {
            Rejection::IncorrectNumberElements => "the proof's length is not the proof size",
            Rejection::InvalidParameters => {
                "R is not below the number of tries, or S not below the width"
            }
            Rejection::InvalidProof => "the proof's chain doesn't exist or doesn't pass",
            Rejection::Refused(k) => return k.fmt(f),
        })
    }
}

impl Error for Rejection {}

// ---- The chain of a proof's elements, a round at a time

// The start round.
#[tactic(auto, using(crate::proofs::ChainFollowed::from_start))]
fn first_round(p: Params, retry: RetryCounter, search: SearchCounter) -> Option<Round>
    ensures { (es : ElementList) → followed p retry.0 (option_of result) es ≡ last_hash p retry.0 search.0 es }
{
    round_of(start_hash(retry, search), p.set_size)
}

// The round behind another by an element: there is none unless the element's bin is the other's id.
#[tactic(auto, using(crate::proofs::ChainFollowed::next_told))]
fn next_round(p: Params, retry: RetryCounter, round: Round, element: Element) -> Option<Round>
    ensures { (es : ElementList) → followed p retry.0 (option_of result) es ≡ follow p retry.0 round.hash round.id (element_read element.entry ∷ es) }
{
    if bin_of(retry, element, p.set_size)? != round.id {
        return None;
    }
    round_of(next_hash(round.hash, element), p.set_size)
}

// ---- The judgement

// A proof: its counters, and the list of its elements.
#[derive(Clone, Copy)]
pub struct Proof<L> {
    pub retry: RetryCounter,
    pub search: SearchCounter,
    pub list: L,
}

impl<L: Listed> Proof<L> {
    // The round behind the last of its elements, if its chain exists. Places are counted: no list of elements has an iterator.
    fn last_round(&self, p: Params) -> Option<Round>
        ensures { hash_of (option_of result) ≡ last_hash p self.now.retry.0 self.now.search.0 (L.listed self.now.list) }
    {
        let mut round = first_round(p, self.retry, self.search)?;
        for place in 0..self.list.len() {
            round = next_round(p, self.retry, round, self.list.element(place))?;
        }
        Some(round)
    }

    // Whether that chain exists and its last hash says yes.
    fn passes(&self, p: Params) -> bool
        ensures { result ≡ yes_on p.x (last_hash p self.now.retry.0 self.now.search.0 (L.listed self.now.list)) }
    {
        self.last_round(p)
            .is_some_and(|round| proof_hash(round.hash, p.x))
    }

    // What the length of the list and the counters say: accepted where they leave it to the chain.
    #[tactic(auto, unfolding(sampling::specs::core::FirstNumber::first_number))]
    fn judge_counts(&self, p: Params) -> Result<(), Rejection>
        ensures { verdict_by result ≡ counts_number p self.now.retry.0 self.now.search.0 (length (L.listed self.now.list)) }
    {
        if self.list.len() as u64 != p.proof_size {
            return Err(Rejection::IncorrectNumberElements);
        }
        if p.search_width <= self.search.0 || p.max_retries <= self.retry.0 {
            return Err(Rejection::InvalidParameters);
        }
        Ok(())
    }

    // The verdict on it under lawful settings: by length, else by counters, else by the chain.
    #[tactic(auto, unfolding(crate::specs::core::Verifier::judged, sampling::specs::core::FirstNumber::first_number))]
    pub fn judge(&self, p: Params) -> Result<(), Rejection>
        ensures { verdict_by result ≡ judged p self.now.retry.0 self.now.search.0 (L.listed self.now.list) }
    {
        self.judge_counts(p)?;
        if !self.passes(p) {
            return Err(Rejection::InvalidProof);
        }
        Ok(())
    }
}
