// Counts how many chains of each length the trees of a range of search counters have, and draws how they thin or grow.
//
//     shape ELEMENTS SET_SIZE U C R FIRST COUNT
//     shape ELEMENTS SET_SIZE PROOF_SIZE MAX_RETRIES SEARCH_WIDTH DFS_BOUND X R FIRST COUNT
//
// ELEMENTS and the settings are those of `prove_and_verify`: the small case's for proofs of U elements and completeness C, or each by
// itself. R is a retry counter, FIRST a search counter and COUNT how many follow from it on; each has a tree. A tree of more chains than
// the step bound is left out of the sums, and the first 16 are named. COUNT times the step bound is below 2^64, so that no sum passes 64
// bits, and COUNT below 2^32. There is room for 65,536 elements of 1,048,576 data bytes in all, within the system's ordinary stack of 8 MB.
//
// The table has each length that a chain has; if the greatest is above 40, only the multiples of 2, 5, 10, 20 or 50, for 41 rows at most,
// and the greatest itself. A length's bar is as long as its total against the greatest total, in 40 signs, rounded up.
#![tactic(auto)]

mod counting;
mod figures;
mod report;
mod sums;

use arguments::{Argument, PastLimits, Reading};
use centralized_telescope::{Params, check_params};
use counting::Trees;
use outcomes::unless_refused;
use std::rt::{Env, Files};

fn say_usage(rt: &impl Print) {
    let _ = print!(rt;
        "\
usage: shape ELEMENTS SET_SIZE U C R FIRST COUNT
       shape ELEMENTS SET_SIZE PROOF_SIZE MAX_RETRIES SEARCH_WIDTH DFS_BOUND X R FIRST COUNT
ELEMENTS  a file of elements, one to a line: data in hexadecimal, or -, and perhaps a space and the index
U, C      proof size and completeness of the small case; C a whole number, or 0x and 16 hexadecimal digits of a double
X         the threshold of 128 bits, in 32 hexadecimal digits
R         the retry counter; a try's are 1, 2, .. up to the number of tries
FIRST     the first search counter; a try's are 0, 1, .. below the search width
COUNT     how many search counters, each with a tree of its own, none above 2^64 - 1: below 2^32, and times the step bound below 2^64
A table is printed of how many chains the trees have, by length: in all, in a tree on average and in the largest, with a bar. It has each
length up to the greatest; above 40 only multiples of 2, 5, 10, 20 or 50, and the greatest. Trees over the step bound are left out
Look for means that stay near 1 up to the proof size, as with as many elements kept as SET_SIZE, and a try well below the step bound
Means that fall leave few chains to pass: bring more elements, or plan a smaller set. Means that grow reach the bound sooner: do the reverse
"
    );
}

// The settings follow the file's name; what is past its limits the library refuses by number.
const BEHIND_NAME: Reading = Reading {
    first: 2,
    past_limits: PastLimits::Read,
};

// The trees that arguments `first` and the two behind it ask for, under a step bound.
fn trees_at(rt: &(impl Env + Print), first: usize, bound: u64) -> Option<Trees> {
    let argument = |k: usize, name| Argument {
        place: first.saturating_add(k),
        name,
    };
    let retry = argument(0, "R").whole(rt)?;
    let first = argument(1, "FIRST").whole(rt)?;
    let count = argument(2, "COUNT").whole_within(rt, 1..=figures::most_trees(first, bound))?;
    Some(Trees {
        retry,
        first,
        last: first + (count - 1),
    })
}

// The table under settings, with R as argument `retry`; or nothing but what is wrong.
fn answer(rt: &(impl Env + Files + Print), p: Params, retry: usize) -> Option<()> {
    let mut room = [0; 4096];
    let elements = Argument {
        place: 1,
        name: "ELEMENTS",
    };
    let elements = elements.path(rt, &mut room)?;
    unless_refused(rt, check_params(p))?;
    let trees = trees_at(rt, retry, p.dfs_bound)?;
    counting::run(rt, p, trees, elements);
    Some(())
}

fn run(rt: &(impl Env + Files + Print)) -> Option<()> {
    // The program's own name is among the words.
    match arguments::count(rt) {
        8 => answer(rt, BEHIND_NAME.small_case(rt)?, 5),
        11 => answer(rt, BEHIND_NAME.each_by_itself(rt)?, 8),
        _ => {
            say_usage(rt);
            None
        }
    }
}

fn main(rt: HostRuntime) {
    let _ = run(&rt);
}
