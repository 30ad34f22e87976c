// The centralized telescope over what `sampling` promises. What is named here is all that a user sees.
#![tactic(auto)]

mod bins;
mod blocks;
mod buffers;
mod digits;
mod element_bytes;
mod errors;
mod exports;
mod in_bytes;
mod lawful;
mod listed;
mod lists;
mod misc;
mod numbers;
mod params;
mod planning;
mod pool;
mod preparing;
mod products;
mod proof;
mod proof_list;
mod ready;
mod round;
mod run;
mod search;
mod security;
mod shape;
mod sort;
mod source;
mod telescope;
mod theorems;
mod ticket;
mod types;

pub use buffers::Buffers;
pub use errors::{Refusal, refusal_number};
pub use exports::alba_verify;
pub use lists::Lent;
pub use misc::check_distinct;
pub use params::{Params, SmallSettings, check_params, param_small_case, settings_of};
pub use planning::{Amounts, plan};
pub use pool::{pool_data, pool_size, prove_pool};
pub use preparing::{commit, prepare};
pub use products::{Party, Shared, TwoAnswers, two_products};
pub use proof::{Rejection, verdict_number};
pub use proof_list::write_proof;
pub use round::{RetryCounter, SearchCounter};
pub use search::{Search, proof_search_number};
pub use security::proof_size;
pub use shape::count_chains;
pub use telescope::{prove, verify};
pub use theorems::{
    all_cases, blocks_counted, bytes_judged_alike, cases_served, change_noticed, counts_exact,
    demand_3, distinct_exactly, first_layout_refused, found_example, last_alone, pair_proves,
    parties_apart, parties_example, passing_full, plan_needed, plan_suffices, pool_as_one_list,
    pool_guaranteed, proof_listed, raised_answer, raised_example, raised_run, raised_try,
    runs_told, served_example, shape_example, size_never_falls, size_never_rises, size_one_answer,
    steps_not_passed, ticket_bounded, ticket_fits, ticket_judged_alike, ticket_reads_back,
    ticket_writes_back, tickets_exactly, tight_example, totals_k, try_guaranteed, verdict_exactly,
};
pub use ticket::{TicketProof, read_ticket, stated_blocks, write_ticket};
pub use types::check_list;
