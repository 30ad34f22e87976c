// What a run takes, worked out from its settings before anything is lent.
ghost use Rattle.std.specs.Prelude.{◌≡◌, ◌≤◌};
ghost use Rattle.centralized_telescope.specs.later.Plan.{amounts, planned, planned_by};
ghost use Rattle.centralized_telescope.specs.core.Elements.{max_data_bytes};

use crate::blocks::{BODY_BYTES, MAX_FILLING};
use crate::element_bytes::MAX_HEAD_BYTES;
use crate::errors::Refusal;
use crate::lawful::Lawful;
use crate::params::{Params, lawful};
use crate::ticket::HEAD_BYTES;
use crate::types::MAX_DATA_BYTES;

// How much to reserve, and how long a run may get.
#[derive(Clone, Copy)]
pub struct Amounts {
    // numbers of the prover's places
    pub places: u64,
    // numbers of its bin table
    pub bin_table: u64,
    // no run counts more steps
    pub most_steps: u64,
    // blocks of 512 bytes that hold the ticket of any proof whose data is no longer than planned for
    pub ticket_blocks: u64,
}

// The numbers of bytes that a ticket's size is made of.
const HEAD: u64 = HEAD_BYTES as u64;

const ELEMENT_HEAD: u64 = MAX_HEAD_BYTES as u64;

const BODY: u64 = BODY_BYTES as u64;

const FILLING: u64 = MAX_FILLING as u64;

const LONGEST: u64 = MAX_DATA_BYTES as u64;

#[tactic(auto, using(crate::specs::laws::PlanLaws::amounts_fit), unfolding(crate::specs::later::Plan::amounts))]
fn amounts_of(p: Lawful, longest: u64) -> Amounts
    requires { longest ≤ max_data_bytes }
    ensures { result ≡ amounts p.params longest }
{
    let settings = p.params;
    let size = HEAD + settings.proof_size * (ELEMENT_HEAD + longest);
    Amounts {
        places: settings.proof_size,
        bin_table: 3 * settings.set_size + 1,
        most_steps: settings.max_retries * settings.dfs_bound,
        ticket_blocks: (size + FILLING) / BODY,
    }
}

// The amounts for runs under these settings over elements with data of at most `longest` bytes, or the first refusal: the settings', then
// that of a length that no element may have.
#[tactic(auto, using(crate::specs::laws::PlanLaws::plan_told))]
pub fn plan(p: Params, longest: u64) -> Result<Amounts, Refusal>
    ensures { planned_by result ≡ planned p longest }
{
    let settings = lawful(p)?;
    if longest > LONGEST {
        return Err(Refusal::TooLarge);
    }
    Ok(amounts_of(settings, longest))
}
