// The prover's search: a try's chains are walked in their order, and tries are made until one finds.
ghost use Rattle.std.specs.Prelude.{◌≡◌, ℕ, ◌+◌, ◌*◌, ◌≤◌, List, [], ◌++◌, length, take, drop};
ghost use Rattle.std.proofs.Math.Option.{none};
ghost use Rattle.centralized_telescope.specs.core.Params.{max_proof_size};
ghost use Rattle.centralized_telescope.specs.core.Prover.{proved_by, search_by, by_search, answered};
ghost use Rattle.centralized_telescope.specs.inner.Source.{meant};
ghost use Rattle.centralized_telescope.specs.inner.SourceHeld.{source_held};
ghost use Rattle.centralized_telescope.specs.inner.Visit.{try_held, visited, walked, tried, CanVisit, CanWalk, VisitEnds};
ghost use Rattle.centralized_telescope.specs.inner.Visit.{WalkEnds, TryEnds};

use crate::bins::fill_table;
use crate::errors::Refusal;
use crate::lawful::Lawful;
use crate::numbers::wide;
use crate::params::MAX_PROOF_SIZE;
use crate::ready::ReadyTry;
use crate::round::{
    RetryCounter, Round, SearchCounter, next_hash, proof_hash, round_of, start_hash,
};
use crate::source::Source;
use std::fmt;
use std::ops::ControlFlow;

// The longest path: a place for each element of the largest proof.
const PATH: usize = MAX_PROOF_SIZE as usize;

// Writes the first n places of the path.
fn write_places(path: &[u32], n: usize, places: &mut [u32])
    requires { (n ≤ length path.now) × (n ≤ length places.old) }
    ensures { places.new ≡ take n path.now ++ drop n places.old }
{
    places[..n].copy_from_slice(&path[..n]);
}

// A chain that exists, by its last round: at full length it passes or doesn't, before that its bin is walked. Break: one was found. Each
// answer has the count of the steps so far. Path, depth and places are no struct: document 01 has the path passed beside the depth ("The
// form for each place"), and what is promised of the path at a depth is no more than of its first places.
#[cycle(visit_walk)]
fn visit(
    t: &ReadyTry,
    search: SearchCounter,
    round: Round,
    path: &mut [u32],
    depth: usize,
    steps: u64,
    places: &mut [u32],
) -> ControlFlow<u64, u64>
    requires can { CanVisit t.now (length places.old) round.id depth steps }
    requires long { length path.old ≡ max_proof_size }
    ensures ends { VisitEnds t.now.settings.params depth (visited (try_held t.now) search.0 round.hash round.id (take depth path.old)
        depth steps) result places.old places.new }
    ensures path_kept { take depth path.new ≡ take depth path.old }
{
    let settings = t.settings.params;
    if depth < settings.proof_size as usize {
        let candidates = t.places_in(round.id as usize);
        return walk(
            t,
            search,
            round.hash,
            path,
            depth,
            candidates,
            steps + 1,
            places,
        );
    }
    if proof_hash(round.hash, settings.x) {
        return ControlFlow::Break(steps + 1);
    }
    ControlFlow::Continue(steps + 1)
}

// The extensions of a chain by the places that its bin has: each that exists is visited. One path serves all levels of the stack: each
// writes at its own depth. The places found are written here, where the path is whole.
#[cycle(visit_walk)]
fn walk(
    t: &ReadyTry,
    search: SearchCounter,
    h: [u8; 32],
    path: &mut [u32],
    depth: usize,
    candidates: &[u32],
    steps: u64,
    places: &mut [u32],
) -> ControlFlow<u64, u64>
    requires can { CanWalk t.now (length places.old) candidates.now depth steps }
    requires long { length path.old ≡ max_proof_size }
    ensures ends { WalkEnds (walked (try_held t.now) search.0 h (take depth path.old) depth candidates.now steps) result places.old
        places.new }
    ensures path_kept { take depth path.new ≡ take depth path.old }
{
    let settings = t.settings.params;
    let size = settings.proof_size as usize;
    let mut count = steps;
    for place in candidates {
        if settings.dfs_bound <= count {
            return ControlFlow::Continue(count);
        }
        let element = t.source.element(wide(*place));
        if let Some(next) = round_of(next_hash(h, element), settings.set_size) {
            path[depth] = *place;
            match visit(t, search, next, path, depth + 1, count, places) {
                ControlFlow::Break(found) => {
                    if depth + 1 == size {
                        write_places(path, size, places);
                    }
                    return ControlFlow::Break(found);
                }
                ControlFlow::Continue(so_far) => {
                    count = so_far;
                }
            }
        }
    }
    ControlFlow::Continue(count)
}

// One try: its chains, search counter by search counter, over the bin table of its retry counter. Break: with the search counter of what it
// found.
pub fn prove_index(t: &ReadyTry, places: &mut [u32]) -> ControlFlow<(SearchCounter, u64), u64>
    requires { t.now.settings.params.proof_size ≤ length places.old }
    ensures { TryEnds (tried (try_held t.now) t.now.settings.params.search_width 0 0) result places.old places.new }
{
    let settings = t.settings.params;
    let mut count: u64 = 0;
    let mut path = [0u32; PATH];
    for s in 0..settings.search_width {
        if settings.dfs_bound <= count {
            return ControlFlow::Continue(count);
        }
        let search = SearchCounter(s);
        if let Some(start) = round_of(start_hash(t.retry, search), settings.set_size) {
            match visit(t, search, start, &mut path, 0, count, places) {
                ControlFlow::Break(found) => {
                    return ControlFlow::Break((search, found));
                }
                ControlFlow::Continue(so_far) => {
                    count = so_far;
                }
            }
        }
    }
    ControlFlow::Continue(count)
}

// How a search ends: with a proof's counters and the step count, its places being written; or without a proof, with the step count, which
// reached the bound or did not. An enum of three and no Result: a search that ran to its end and found nothing isn't an error. It has done
// what was asked, and its count is an answer as a proof's is (docs/DECISIONS.md, House). Document 01's table has 11 and 12 as numbers of
// the search's end, which alone carry a count; the refusals before a search are the Err.
#[derive(Clone, Copy, PartialEq, Eq, Debug)]
pub enum Search {
    Found(RetryCounter, SearchCounter, u64),
    NotFoundInBounds(u64),
    NotFound(u64),
}

// The number of the end of a search.
impl From<Search> for u32 {
    ghost from_gives = { λ end number. number ≡ (search_by end [] []).number };

    fn from(end: Search) -> u32 {
        match end {
            Search::Found(_, _, _) => 0,
            Search::NotFoundInBounds(_) => 11,
            Search::NotFound(_) => 12,
        }
    }
}

impl fmt::Display for Search {
    fn fmt<W: fmt::Write>(&self, f: &mut fmt::Formatter<W>) -> fmt::Result {
        f.write_str(match self {
            Search::Found(_, _, _) => "a proof is found",
            Search::NotFoundInBounds(_) => {
                "the steps of all tries together reached the bound. A higher bound brings a proof only from a try that \
                 reached the lower bound by itself. \
                 It can't lose a proof that was found, and gives the same one unless an earlier try had reached the lower bound"
            }
            Search::NotFound(_) => "the steps stayed below the bound",
        })
    }
}

// The number of an answer of the prover. READING and PROVED name this call, and a Result has no impl of ours.
pub fn proof_search_number(answer: Result<Search, Refusal>) -> u32
    ensures { result ≡ (proved_by answer [] []).number }
{
    match answer {
        Ok(end) => u32::from(end),
        Err(k) => u32::from(k),
    }
}

// The end of a search without a proof, by its step count.
#[tactic(auto, unfolding(crate::specs::core::Prover::answered))]
pub fn without_proof(p: Lawful, steps: u64) -> Search
    ensures { (places table : List ℕ) → search_by result places table ≡ answered p.params none 0 steps places table }
{
    if p.params.dfs_bound <= steps {
        return Search::NotFoundInBounds(steps);
    }
    Search::NotFound(steps)
}

// The tries, R from 1 to max_retries, up to the first find.
pub fn prove_routine(p: Lawful, source: &Source, places: &mut [u32], table: &mut [u32]) -> Search
    requires { (p.params.proof_size ≤ length places.old) × (3 * p.params.set_size + 1 ≤ length table.old) }
    ensures { search_by result places.new table.new ≡ by_search p.params (meant (source_held source.now)) places.old table.old }
{
    let settings = p.params;
    let mut steps: u64 = 0;
    for r in 1..=settings.max_retries {
        let retry = RetryCounter(r);
        fill_table(retry, source, settings.set_size as usize, table);
        let ready = ReadyTry {
            settings: p,
            retry,
            source: *source,
            table,
        };
        match prove_index(&ready, places) {
            ControlFlow::Break((search, count)) => {
                return Search::Found(retry, search, steps + count);
            }
            ControlFlow::Continue(count) => {
                steps += count;
            }
        }
    }
    without_proof(p, steps)
}
