// The calls that a user makes, prover and verifier, and what the prover refuses.
ghost use Rattle.std.specs.Prelude.{◌≡◌, IfOk};
ghost use Rattle.centralized_telescope.specs.core.LentLists.{lent};
ghost use Rattle.sampling.specs.core.FirstNumber.{first_number};
ghost use Rattle.centralized_telescope.specs.core.Refusals.{answer_number};
ghost use Rattle.centralized_telescope.specs.core.Prover.{table_short, room_refusals, prover_refusal, proved, proved_by};
ghost use Rattle.centralized_telescope.specs.core.Verifier.{verdict, verdict_by};
ghost use Rattle.centralized_telescope.specs.inner.Runs.{RunOf};

use crate::errors::Refusal;
use crate::lawful::Lawful;
use crate::lists::Lent;
use crate::params::{Params, check_params, lawful};
use crate::proof::{Proof, Rejection};
use crate::round::{RetryCounter, SearchCounter};
use crate::run::Run;
use crate::search::{Search, prove_routine};
use crate::source::Source;
use crate::types::accept;

// ---- What a run is refused for

// Whether a bin table of so many numbers is too short.
pub fn is_table_short(p: Lawful, table: usize) -> bool
    ensures { result ≡ table_short p.params table }
{
    let settings = p.params;
    table < 3 * settings.set_size as usize + 1
}

// The last two refusals: whether so many places, bin-table numbers and elements are too few for lawful settings.
#[tactic(auto, using(crate::proofs::ProveAnswers::room_told))]
pub fn check_room(p: Lawful, count: usize, places: usize, table: usize) -> Result<(), Refusal>
    ensures { answer_number result ≡ first_number (room_refusals p.params count places table) }
{
    let settings = p.params;
    if places < settings.proof_size as usize || is_table_short(p, table) {
        return Err(Refusal::WorkspaceShort);
    }
    if count < settings.set_size as usize {
        return Err(Refusal::NotEnoughElements);
    }
    Ok(())
}

// The run, or the first of the prover's refusals in the table's order, with so many places and bin-table numbers lent. It takes lengths, so
// that a call which only reads the workspace can ask too.
#[tactic(auto, using(crate::proofs::ProveAnswers::run_told))]
pub fn check_run<'a>(
    p: Params,
    list: Lent<'a, 'a>,
    places: usize,
    table: usize,
) -> Result<Run<'a>, Refusal>
    ensures number { answer_number result ≡ prover_refusal p (lent list.entry) places table }
    ensures run { IfOk result (RunOf p (lent list.entry)) }
{
    let settings = lawful(p)?;
    let accepted = accept(list)?;
    check_room(settings, accepted.len(), places, table)?;
    Ok(Run {
        settings,
        list: accepted,
    })
}

// ---- The prover

// Searches the list for a proof, in lent places and a lent bin table: the first line of the table that it meets, or how the search ended.
// set_size is the size that the prover's set is taken to have. What a proof shows is a smaller bound, up to a chance that the settings give
// (docs/GREEN.md). Equal elements aren't looked for: `check_distinct` does that.
pub fn prove(
    p: Params,
    list: Lent,
    places: &mut [u32],
    table: &mut [u32],
) -> Result<Search, Refusal>
    ensures { proved_by result places.new table.new ≡ proved p (lent list.entry) places.old table.old }
{
    let run = check_run(p, list, places.len(), table.len())?;
    Ok(prove_routine(run.settings, &Source::of_list(run.list), places, table))
}

// ---- The verifier

// Whether a proof, R and S with a list of elements, is accepted: the first line of the table that it meets.
#[tactic(auto, using(crate::proofs::VerdictAnswers::verdict_told))]
pub fn verify(
    p: Params,
    retry_counter: RetryCounter,
    search_counter: SearchCounter,
    list: Lent,
) -> Result<(), Rejection>
    ensures { verdict_by result ≡ verdict p retry_counter.0 search_counter.0 (lent list.entry) }
{
    check_params(p)?;
    let proof = Proof {
        retry: retry_counter,
        search: search_counter,
        list: accept(list)?,
    };
    proof.judge(p)
}
