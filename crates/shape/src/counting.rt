// The trees of a range of search counters, counted one after the other.
use crate::report;
use crate::sums::{LENGTHS, Sums};
use arguments::say_settings;
use centralized_telescope::{Lent, Params, Refusal, RetryCounter, SearchCounter, count_chains};
use outcomes::unless_refused;
use proof_files::{FullRoom, say_elements};
use std::rt::Files;

// The trees that are asked for: those of a retry counter, and of the search counters from the first to the last.
#[derive(Clone, Copy)]
pub struct Trees {
    pub retry: u64,
    pub first: u64,
    pub last: u64,
}

// The sums over the trees that have no more chains than the bound; the others are left out. The room is that of the largest set size.
fn count(p: Params, list: Lent, trees: Trees) -> Result<Sums, Refusal> {
    let mut table = [0u32; 98305];
    let mut counts = [0u64; LENGTHS];
    let mut sums = Sums::new();
    let retry = RetryCounter(trees.retry);
    for search in trees.first..=trees.last {
        match count_chains(
            p,
            retry,
            SearchCounter(search),
            list,
            &mut table,
            &mut counts,
        ) {
            Ok(passing) => sums.add(&counts, passing),
            Err(Refusal::TreeTooLarge) => sums.leave_out(search),
            Err(k) => return Err(k),
        }
    }
    Ok(sums)
}

// Reads the file of elements, counts and says what came of it.
pub fn run(rt: &(impl Files + Print), p: Params, trees: Trees, elements: &[u8]) {
    let mut room = FullRoom::new();
    let mut read = room.list();
    if proof_files::read_elements(rt, elements, &mut read).is_err() {
        return;
    }
    let list = read.lent();
    say_settings(rt, p);
    say_elements(rt, elements, list.ends.len(), p.set_size);
    if let Some(sums) = unless_refused(rt, count(p, list, trees)) {
        report::say_shape(rt, p, trees, &sums);
    }
}
