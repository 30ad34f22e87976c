// The verifier as C and Rust call it: settings one by one, ends and indexes as lent bytes, and the answer is a number.
ghost use Rattle.std.specs.Prelude.{◌≡◌, ◌/◌, ◌<◌, IfOk, length, slice_index};
ghost use Rattle.centralized_telescope.specs.core.Elements.{end_wrong, data_long, list_check, lent_at_entry};
ghost use Rattle.centralized_telescope.specs.core.Refusals.{answer_number};
ghost use Rattle.centralized_telescope.specs.core.Verifier.{verdict_by};
ghost use Rattle.centralized_telescope.specs.core.Params.{settings_of};
ghost use Rattle.centralized_telescope.specs.core.Exports.{numbers_of, numbered, exported_verdict};
ghost use Rattle.centralized_telescope.specs.later.VerdictExactly.{bytes_check};
ghost use Rattle.centralized_telescope.specs.inner.Held.{option_of};
ghost use Rattle.centralized_telescope.specs.inner.ListReading.{start_at, index_at};
ghost use Rattle.centralized_telescope.specs.inner.BytesHeld.{bytes_held};

use crate::errors::Refusal;
use crate::in_bytes::{AcceptedBytes, LentBytes};
use crate::listed::Listed;
use crate::lists::Element;
use crate::numbers::number;
use crate::params::{Params, check_params, settings_of};
use crate::proof::{Proof, Rejection, verdict_number};
use crate::round::{RetryCounter, SearchCounter};
use crate::types::{EndsFound, find_in_ends, list_answer, some_mark_over, start_of};

// How many ends there are.
#[tactic(auto, using(crate::proofs::NumbersRead::length_numbers_in))]
fn end_count(ends: &[u8]) -> usize
    ensures { result ≡ length (numbers_of 4 ends.now) }
{
    ends.len() / 4
}

// The end at a place.
#[tactic(auto, using(crate::proofs::NumbersRead::numbers_told))]
fn end_at(ends: &[u8], place: usize) -> usize
    requires { place < length (numbers_of 4 ends.now) }
    ensures { result ≡ slice_index (numbers_of 4 ends.now) place }
{
    number(ends, 4 * place, 4) as usize
}

// Where the data of the element at a place starts.
fn start_in_bytes(ends: &[u8], place: usize) -> usize
    requires { place < length (numbers_of 4 ends.now) }
    ensures { result ≡ start_at (numbers_of 4 ends.now) place }
{
    start_of(place, |i| end_at(ends, i))
}

// The index at a place, if there is one. Without one, no byte of it is read.
#[tactic(auto, using(crate::proofs::NumbersRead::number_at))]
fn index_at(marks: &[u8], indexes: &[u8], place: usize) -> Option<u64>
    requires { (place < length marks.now) × (place < length indexes.now / 8) }
    ensures { option_of result ≡ index_at marks.now (numbers_of 8 indexes.now) place }
{
    if marks[place] != 1 {
        return None;
    }
    Some(number(indexes, 8 * place, 8))
}

// The faults of the ends.
fn find_in_bytes(ends: &[u8], limit: usize) -> EndsFound
    ensures wrong { result.wrong ≡ end_wrong 0 limit (numbers_of 4 ends.now) }
    ensures long { result.long ≡ data_long 0 (numbers_of 4 ends.now) }
{
    find_in_ends(end_count(ends), |place| end_at(ends, place), limit)
}

// Whether a list in bytes, of whole counts, is accepted.
fn check_bytes(list: LentBytes) -> Result<(), Refusal>
    ensures { answer_number result ≡ list_check (numbered (bytes_held list.entry)) }
{
    list_answer(
        end_count(list.ends),
        list.marks.len(),
        list.indexes.len() / 8,
        some_mark_over(list.marks),
        find_in_bytes(list.ends, list.data.len()),
    )
}

// The list itself, where no bytes are left over and it is accepted.
#[tactic(auto, unfolding(sampling::specs::core::FirstNumber::first_number))]
fn accept_bytes(list: LentBytes) -> Result<AcceptedBytes, Refusal>
    ensures number { answer_number result ≡ bytes_check (bytes_held list.entry) }
    ensures same { IfOk result (λ accepted. bytes_held accepted.lent ≡ bytes_held list.entry) }
{
    if list.ends.len() % 4 != 0 || list.indexes.len() % 8 != 0 {
        return Err(Refusal::Malformed);
    }
    check_bytes(list)?;
    Ok(AcceptedBytes { lent: list })
}

// Ends and indexes are read where they lie.
impl<'a> Listed for AcceptedBytes<'a> {
    ghost use Rattle.centralized_telescope.specs.core.Elements.{elements};
    ghost use Rattle.centralized_telescope.specs.core.Exports.{numbered};
    ghost use Rattle.centralized_telescope.specs.inner.BytesHeld.{bytes_held};

    ghost listed = { λ list. elements (numbered (bytes_held list.lent)) };

    #[tactic(auto, using(crate::proofs::ExportAnswers::elements_many))]
    fn len(&self) -> usize {
        self.lent.marks.len()
    }

    #[tactic(auto, using(crate::proofs::ExportAnswers::place_told))]
    fn element(&self, place: usize) -> Element<'_> {
        let list = self.lent;
        let start = start_in_bytes(list.ends, place);
        let end = end_at(list.ends, place);
        Element {
            data: &list.data[start..end],
            index: index_at(list.marks, list.indexes, place),
        }
    }
}

// The verdict where ends and indexes are bytes.
#[tactic(auto, using(crate::proofs::ExportAnswers::exported_told))]
fn verify_bytes(
    p: Params,
    retry: RetryCounter,
    search: SearchCounter,
    list: LentBytes,
) -> Result<(), Rejection>
    ensures { verdict_by result ≡ exported_verdict p retry.0 search.0 (bytes_held list.entry) }
{
    check_params(p)?;
    let proof = Proof {
        retry,
        search,
        list: accept_bytes(list)?,
    };
    proof.judge(p)
}

// 0: the proof is accepted; else the number of the first refusal that it meets. Ends take 4 bytes each and indexes 8, the highest
// byte first. X is passed as its high word, then its low.
pub fn alba_verify(
    set_size: u64,
    proof_size: u64,
    max_retries: u64,
    search_width: u64,
    dfs_bound: u64,
    x_high: u64,
    x_low: u64,
    retry_counter: u64,
    search_counter: u64,
    data: &[u8],
    ends: &[u8],
    marks: &[u8],
    indexes: &[u8],
) -> u32
    ensures { result ≡ exported_verdict (settings_of set_size proof_size max_retries search_width dfs_bound x_high x_low)
        retry_counter search_counter (lent_at_entry «data» ends marks indexes) }
{
    verdict_number(verify_bytes(
        settings_of(
            set_size,
            proof_size,
            max_retries,
            search_width,
            dfs_bound,
            x_high,
            x_low,
        ),
        RetryCounter(retry_counter),
        SearchCounter(search_counter),
        LentBytes {
            data,
            ends,
            marks,
            indexes,
        },
    ))
}
