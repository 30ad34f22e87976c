// Runs the library on what is stored beside the program, and compares with the stored outcomes.
//
// examples.txt: the short messages of NIST's examples for SHA-256, which accompany FIPS 180-4, and the empty one, each with
// its digest as `sha256sum` gives it. messages.txt: what `make-list` writes, a message of each length from 0 to 260.
// answers.txt: what `harness answers` writes, cases of all that the library does with the answers of the original Rust.
#![tactic(auto)]

mod answers;
mod ask;
mod ask_list;
mod file;
mod messages;
mod million;
mod said;
mod ways;

use crate::file::say_counts;
use crate::messages::Report;
use std::rt::Files;

fn say_wrong(rt: &impl Print, name: &str, number: Option<usize>, what: &str) {
    if let Some(number) = number {
        let _ = println!(rt; "{name} line {number}: {what}");
    }
}

// Runs a list that should have so many lines, and says what is wrong with it.
fn run_list(rt: &(impl Files + Print), name: &str, lines: usize) -> Report {
    let report = messages::run(rt, name);
    say_wrong(
        rt,
        name,
        report.malformed,
        "not a message, a space and a digest",
    );
    say_wrong(rt, name, report.unequal, "another digest");
    if report.lines != lines {
        let _ = println!(rt; "{name}: another number of lines than expected");
    }
    report
}

// An example in the list counts where all ways to hash it give its digest.
fn examples_are_equal(rt: &(impl Files + Print)) -> bool {
    let report = run_list(rt, "examples.txt", 4);
    let equal = report.whole + million::equal();
    say_counts(rt, "FIPS 180-4 and NIST examples", equal as u64, 6) && report.lines == 4
}

fn messages_are_equal(rt: &(impl Files + Print)) -> bool {
    let report = run_list(rt, "messages.txt", 261);
    say_counts(
        rt,
        "messages of 0 to 260 bytes, each cut in 7 ways and once byte by byte",
        report.ways as u64,
        2088,
    ) && report.lines == 261
}

fn main(rt: HostRuntime) {
    let examples = examples_are_equal(&rt);
    let messages = messages_are_equal(&rt);
    let answers = answers::are_equal(&rt, "answers.txt");
    let verdict = if examples && messages && answers {
        "all equal"
    } else {
        "NOT ALL EQUAL"
    };
    let _ = println!(rt; "{verdict}");
}
