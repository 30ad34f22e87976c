// One bin table for two products: each party's try over it, run by itself.
ghost use Rattle.std.specs.Prelude.{◌≡◌, ◌+◌, ◌*◌, ◌≤◌, true, length, IfOk};
ghost use Rattle.centralized_telescope.specs.core.Elements.{elements};
ghost use Rattle.centralized_telescope.specs.core.LentLists.{lent};
ghost use Rattle.centralized_telescope.specs.inner.Held.{held};
ghost use Rattle.centralized_telescope.specs.core.Params.{max_set_size};
ghost use Rattle.centralized_telescope.specs.core.Prover.{search_by};
ghost use Rattle.centralized_telescope.specs.core.Refusals.{answer_number};
ghost use Rattle.centralized_telescope.specs.later.TwoProducts.{table_right, by_try, both_tried, both_by};
ghost use Rattle.centralized_telescope.specs.inner.Runs.{RunOf};
ghost use Rattle.centralized_telescope.specs.inner.Seeing.{early_refusal, TrueOf, PartyServed};

use crate::bins::fill_table;
use crate::errors::Refusal;
use crate::lists::{AcceptedList, Lent};
use crate::numbers::room;
use crate::params::{MAX_SET_SIZE, Params};
use crate::ready::ReadyTry;
use crate::round::RetryCounter;
use crate::run::Run;
use crate::search::{Search, prove_index, without_proof};
use crate::source::Source;
use crate::telescope::check_run;
use std::ops::ControlFlow;

// The bin table of the largest set has so many numbers.
const TABLE: usize = 3 * MAX_SET_SIZE as usize + 1;

// What both parties share: a list, and a bin table that comes with its retry counter and is only read.
#[derive(Clone, Copy)]
pub struct Shared<'a> {
    pub list: Lent<'a, 'a>,
    pub retry: RetryCounter,
    pub table: &'a [u32],
}

// What has been found out about the shared bin table: whether it is that of n bins. No Option of n: that a table is wrong for n is kept as
// well, so that it isn't made again for the second party.
#[derive(Clone, Copy)]
pub struct Seen {
    pub n: u64,
    pub right: bool,
}

// What a party is answered, and what is known of the table then, if anything.
#[derive(Clone, Copy)]
pub struct PartyAnswer {
    pub answer: Result<Search, Refusal>,
    pub seen: Option<Seen>,
}

// What both parties are answered. The retry counter of a proof is the table's.
#[derive(Clone, Copy)]
pub struct TwoAnswers {
    pub first: Result<Search, Refusal>,
    pub second: Result<Search, Refusal>,
}

// ---- The shared bin table

// Whether the lent bin table is that of n bins and the retry counter, for an accepted list. It is made here once more and compared.
fn is_table_right(retry: RetryCounter, list: AcceptedList, n: usize, table: &[u32]) -> bool
    requires { (n ≤ max_set_size) × (3 * n + 1 ≤ length table.now) }
    ensures { result ≡ table_right n retry.0 (elements (held list.entry)) table.now }
{
    let used = 3 * n + 1;
    let mut own = room::<u32, TABLE>(0);
    fill_table(retry, &Source::of_list(list), n, &mut own);
    table[..used] == own[..used]
}

// Whether the shared bin table is that of n bins: as already known, or worked out now.
fn look(seen: Option<Seen>, list: AcceptedList, retry: RetryCounter, n: u64, table: &[u32]) -> bool
    requires { (n ≤ max_set_size) × (3 * n + 1 ≤ length table.now) × TrueOf (held list) retry.0 table.now seen }
    ensures { result ≡ table_right n retry.0 (elements (held list.entry)) table.now }
{
    match seen {
        Some(known) if known.n == n => known.right,
        _ => is_table_right(retry, list, n as usize, table),
    }
}

// ---- A party

// A party: its settings and its retry counter.
#[derive(Clone, Copy)]
pub struct Party {
    pub settings: Params,
    pub retry: RetryCounter,
}

// A party's refusals before the table is looked at.
#[tactic(auto, using(crate::proofs::PartyAnswers::party_told))]
fn check_party<'a>(party: Party, shared: Shared<'a>, places: usize) -> Result<Run<'a>, Refusal>
    ensures number { answer_number result ≡ early_refusal party.settings (lent shared.entry.list) party.retry.0 shared.entry.retry.0
        places (length shared.entry.table.now) }
    ensures run { IfOk result (RunOf party.settings (lent shared.entry.list)) }
{
    let run = check_run(party.settings, shared.list, places, shared.table.len())?;
    if party.retry != shared.retry {
        return Err(Refusal::OtherRetry);
    }
    Ok(run)
}

// One try over the shared bin table, which is the right one.
fn try_alone(run: Run, retry: RetryCounter, table: &[u32], places: &mut [u32]) -> Search
    requires { (run.settings.params.proof_size ≤ length places.old)
        × (table_right run.settings.params.set_size retry.0 (elements (held run.list)) table.now ≡ true) }
    ensures { search_by result places.new table.now
        ≡ by_try run.entry.settings.params (elements (held run.entry.list)) retry.0 places.old table.now }
{
    let ready = ReadyTry {
        settings: run.settings,
        retry,
        source: Source::of_list(run.list),
        table,
    };
    match prove_index(&ready, places) {
        ControlFlow::Break((search, count)) => Search::Found(retry, search, count),
        ControlFlow::Continue(count) => without_proof(run.settings, count),
    }
}

// A party's answer: its refusals, then its try.
fn serve_party(seen: Option<Seen>, party: Party, shared: Shared, places: &mut [u32]) -> PartyAnswer
    requires { TrueOf (lent shared.list) shared.retry.0 shared.table.now seen }
    ensures { PartyServed (lent shared.entry.list) shared.entry.retry.0 shared.entry.table.now party.settings party.retry.0
        places.old places.new result }
{
    let run = match check_party(party, shared, places.len()) {
        Ok(run) => run,
        Err(k) => {
            return PartyAnswer {
                answer: Err(k),
                seen,
            };
        }
    };
    let n = party.settings.set_size;
    let right = look(seen, run.list, shared.retry, n, shared.table);
    let answer = if right {
        Ok(try_alone(run, shared.retry, shared.table, places))
    } else {
        Err(Refusal::OtherTable)
    };
    PartyAnswer {
        answer,
        seen: Some(Seen { n, right }),
    }
}

// ---- Both

// Serves two parties from one list and one bin table, which comes with its retry counter and is only read: each one's try as if it were
// run alone. The table is looked at once where both have the same set size.
pub fn two_products(
    shared: Shared,
    first: Party,
    second: Party,
    places: &mut [u32],
    places2: &mut [u32],
) -> TwoAnswers
    ensures { both_by result places.new places2.new shared.entry.table.now
        ≡ both_tried (lent shared.entry.list) shared.entry.retry.0 shared.entry.table.now
        first.settings first.retry.0 places.old second.settings second.retry.0 places2.old }
{
    let one = serve_party(None, first, shared, places);
    let two = serve_party(one.seen, second, shared, places2);
    TwoAnswers {
        first: one.answer,
        second: two.answer,
    }
}
