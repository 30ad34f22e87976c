// What is said of the trees: the sums, and the table with its bars.
use crate::counting::Trees;
use crate::figures::{SIGNS, bar_len, chains_of, mean, step_of};
use crate::sums::{NAMED, Sums};
use centralized_telescope::{Params, Refusal};
use outcomes::say_refused;
use proof_files::first;
use text::say::say;

// The trees over the step bound: the first of them by their search counters, and how many more.
fn say_left_out(rt: &impl Print, sums: &Sums) {
    if sums.left_out == 0 {
        return;
    }
    let _ = print!(rt; "S");
    for search in first(&sums.named, sums.left_out as usize) {
        let _ = print!(rt; " {search}");
    }
    let more = sums.left_out.saturating_sub(NAMED as u64);
    if 0 < more {
        let _ = print!(rt; " and {more} more");
    }
    let _ = print!(rt; ": ");
    say_refused(rt, Refusal::TreeTooLarge);
}

// What the trees have together, and what a try would have if its trees are like these.
fn say_sums(rt: &impl Print, p: Params, sums: &Sums) {
    let all = sums.all;
    let (total, largest) = (all.total, all.largest);
    let (whole, rest) = mean(total, sums.trees);
    let passing = sums.passing;
    let _ = println!(rt;
        "chains {total}, mean {whole}.{rest:02}, largest {largest}; passing {passing}"
    );
    if sums.left_out == 0 {
        let width = p.search_width;
        let bound = p.dfs_bound;
        let chains = chains_of(width, total, sums.trees);
        let _ = println!(rt;
            "at this mean a try of {width} trees has {chains} chains; the step bound is {bound}"
        );
    }
}

// A length's row of the table.
fn say_row(rt: &impl Print, sums: &Sums, length: usize, greatest: u64) {
    let Some(chains) = sums.lengths.get(length) else {
        return;
    };
    let (total, largest) = (chains.total, chains.largest);
    let (whole, rest) = mean(total, sums.trees);
    let _ = print!(rt; "{length:>6} {total:>12} {whole:>8}.{rest:02} {largest:>10} ");
    say(rt, first(&[b'#'; SIGNS], bar_len(total, greatest)));
    let _ = println!(rt);
}

// The table, up to the greatest length that a chain has.
fn say_table(rt: &impl Print, p: Params, sums: &Sums) {
    let Some(longest) = sums.longest() else {
        let _ = println!(rt; "no tree has a chain");
        return;
    };
    let greatest = sums.greatest_total();
    let _ = println!(rt; "length        total        mean    largest");
    let step = step_of(longest);
    for length in 0..longest {
        if length % step == 0 {
            say_row(rt, sums, length, greatest);
        }
    }
    say_row(rt, sums, longest, greatest);
    if (longest as u64) < p.proof_size {
        let _ = println!(rt; "no chain is longer");
    }
}

// All that is said of the trees.
pub fn say_shape(rt: &impl Print, p: Params, trees: Trees, sums: &Sums) {
    let Trees { retry, first, last } = trees;
    let counted = sums.trees;
    let left_out = sums.left_out;
    let _ = println!(rt;
        "R {retry}, S {first} to {last}: trees counted {counted}, left out {left_out}"
    );
    say_left_out(rt, sums);
    if counted != 0 {
        say_sums(rt, p, sums);
        say_table(rt, p, sums);
    }
}
