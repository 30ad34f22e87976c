// How many chains of each length a search counter has in a try, and how many of them pass.
ghost use Rattle.std.specs.Prelude.{◌≡◌, ℕ, ◌+◌, ◌-◌, ◌≤◌, List, length, nat_lt, IfOk};
ghost use Rattle.sampling.specs.core.FirstNumber.{line};
ghost use Rattle.centralized_telescope.specs.core.LentLists.{lent};
ghost use Rattle.centralized_telescope.specs.core.Params.{max_proof_size};
ghost use Rattle.centralized_telescope.specs.core.Refusals.{answer_number};
ghost use Rattle.centralized_telescope.specs.core.Search.{chains, along, chains_at};
ghost use Rattle.centralized_telescope.specs.later.Shape.{shape_refusal, shaped, shaped_by};
ghost use Rattle.centralized_telescope.specs.inner.Runs.{RunOf};
ghost use Rattle.centralized_telescope.specs.inner.Visit.{try_held};
ghost use Rattle.centralized_telescope.specs.inner.Tallies.{none_counted, one_more, with_chains, CanCount, CanCountAlong, Counts};

use crate::bins::fill_table;
use crate::errors::Refusal;
use crate::lawful::Lawful;
use crate::lists::Lent;
use crate::numbers::wide;
use crate::params::{MAX_PROOF_SIZE, Params, lawful};
use crate::ready::ReadyTry;
use crate::round::{
    RetryCounter, Round, SearchCounter, next_hash, proof_hash, round_of, start_hash,
};
use crate::run::Run;
use crate::source::Source;
use crate::telescope::is_table_short;
use crate::types::accept;

// A chain has one of so many lengths at most.
const LENGTHS: usize = MAX_PROOF_SIZE as usize + 1;

// What is counted so far: the chains of each length, those of all lengths, and those that pass.
#[derive(Clone, Copy)]
pub struct Tally {
    pub lengths: [u64; LENGTHS],
    pub total: u64,
    pub passing: u64,
}

impl Tally {
    ghost use Rattle.std.specs.Prelude.{◌≡◌, ◌^◌, ◌<◌, ◌≤◌};
    ghost use Rattle.centralized_telescope.specs.core.Params.{max_proof_size};
    ghost use Rattle.centralized_telescope.specs.inner.Tallies.{none_counted, one_more, Few};

    // Nothing is counted yet.
    fn new() -> Tally
        ensures { result ≡ none_counted }
    {
        Tally {
            lengths: [0; LENGTHS],
            total: 0,
            passing: 0,
        }
    }

    // One chain more, of this length.
    fn add(&mut self, len: usize, passes: bool)
        requires { Few self.old × (self.old.total < 2 ^ 48) × (len ≤ max_proof_size) }
        ensures { self.new ≡ one_more len passes self.old }
    {
        self.lengths[len] += 1;
        self.total += 1;
        self.passing += u64::from(passes);
    }
}

// ---- The chains from a round on. A walk of its own beside the prover's: it carries a tally to each level, and no path, find or places.

// Counts a chain that exists, by its last round, and all that grows from it. The search's order is kept. No path is: the depth is a chain's
// length. Once the bound is passed, nothing more is looked at.
#[cycle(count_walk)]
fn count_from(t: &ReadyTry, round: Round, depth: usize, tally: &mut Tally) -> Result<(), Refusal>
    requires { CanCount t.now round.id depth tally.old }
    ensures { (S : ℕ) (places : List ℕ) → length places ≡ depth
        → Counts (try_held t.now) (chains (try_held t.now) S (t.now.settings.params.proof_size - depth) round.hash round.id places)
        tally.old result tally.new }
{
    let settings = t.settings.params;
    if settings.dfs_bound <= tally.total {
        return Err(Refusal::TreeTooLarge);
    }
    if depth < settings.proof_size as usize {
        tally.add(depth, false);
        let candidates = t.places_in(round.id as usize);
        return count_along(t, round.hash, depth, candidates, tally);
    }
    tally.add(depth, proof_hash(round.hash, settings.x));
    Ok(())
}

// Counts what grows from a chain with the last hash h by the places that its bin has.
#[cycle(count_walk)]
fn count_along(
    t: &ReadyTry,
    h: [u8; 32],
    depth: usize,
    candidates: &[u32],
    tally: &mut Tally,
) -> Result<(), Refusal>
    requires { CanCountAlong t.now candidates.now depth tally.old }
    ensures { (S : ℕ) (places : List ℕ) → length places ≡ depth
        → Counts (try_held t.now) (along (try_held t.now) (chains (try_held t.now) S (t.now.settings.params.proof_size - (depth + 1)))
        h places candidates.now) tally.old result tally.new }
{
    for place in candidates {
        let element = t.source.element(wide(*place));
        if let Some(next) = round_of(next_hash(h, element), t.settings.params.set_size) {
            count_from(t, next, depth + 1, tally)?;
        }
    }
    Ok(())
}

// Counts the chains of a search counter.
fn count_tree(t: &ReadyTry, search: SearchCounter) -> Result<Tally, Refusal>
    ensures number { answer_number result
        ≡ line 50 (nat_lt t.now.settings.params.dfs_bound (length (chains_at (try_held t.now) search.0))) }
    ensures counted { IfOk result (λ tally. tally ≡ with_chains (try_held t.now) (chains_at (try_held t.now) search.0) none_counted) }
{
    let mut tally = Tally::new();
    if let Some(start) = round_of(start_hash(t.retry, search), t.settings.params.set_size) {
        count_from(t, start, 0, &mut tally)?;
    }
    Ok(tally)
}

// ---- The call

// A chain has one of so many lengths under these settings: 0 to proof_size.
fn lengths_of(p: Lawful) -> usize
    ensures { (result ≡ p.params.proof_size + 1) × (result ≤ max_proof_size + 1) }
{
    let settings = p.params;
    settings.proof_size as usize + 1
}

// The settings and the list, or the first refusal that comes before the bin table is filled.
#[tactic(auto, using(crate::proofs::ShapeAnswers::shape_told))]
fn check_shape<'a>(
    p: Params,
    list: Lent<'a, 'a>,
    counts: usize,
    table: usize,
) -> Result<Run<'a>, Refusal>
    ensures number { answer_number result ≡ shape_refusal p (lent list.entry) counts table }
    ensures run { IfOk result (RunOf p (lent list.entry)) }
{
    let settings = lawful(p)?;
    let accepted = accept(list)?;
    if is_table_short(settings, table) {
        return Err(Refusal::WorkspaceShort);
    }
    if counts < lengths_of(settings) {
        return Err(Refusal::CountsShort);
    }
    Ok(Run {
        settings,
        list: accepted,
    })
}

// Counts the chains of one retry counter and one search counter by their length: over the first proof_size + 1 counts lent, how many chains
// have 0, 1, .. proof_size places; in the answer, how many pass. The bin table is the try's afterwards, also where there are more chains
// than dfs_bound.
pub fn count_chains(
    p: Params,
    retry_counter: RetryCounter,
    search_counter: SearchCounter,
    list: Lent,
    table: &mut [u32],
    counts: &mut [u64],
) -> Result<u64, Refusal>
    ensures { shaped_by result counts.new table.new
        ≡ shaped p retry_counter.0 search_counter.0 (lent list.entry) counts.old table.old }
{
    let run = check_shape(p, list, counts.len(), table.len())?;
    let settings = run.settings.params;
    let source = Source::of_list(run.list);
    fill_table(retry_counter, &source, settings.set_size as usize, table);
    let ready = ReadyTry {
        settings: run.settings,
        retry: retry_counter,
        source,
        table,
    };
    let tally = count_tree(&ready, search_counter)?;
    let lengths = lengths_of(run.settings);
    counts[..lengths].copy_from_slice(&tally.lengths[..lengths]);
    Ok(tally.passing)
}
