// Makes a ticket's file from a proof's file, and the other way.
//
//     ticket write PROOF TICKET
//     ticket read TICKET PROOF
//
// PROOF is a file as `prove_and_verify` writes it: a line `proof R S`, then the proof's elements, one to a line. TICKET has the ticket's
// blocks and nothing else. The second file is a new one, made once nothing is refused any more. There is room for 65,536 elements with
// 1,048,576 data bytes in all, and so for 3,771 blocks, within the system's ordinary stack of 8 MB.
#![tactic(auto)]

mod convert;
mod report;

use arguments::Argument;
use std::rt::{Env, Files};

fn say_usage(rt: &impl Print) {
    let _ = println!(rt; "usage: ticket write PROOF TICKET");
    let _ = println!(rt; "       ticket read TICKET PROOF");
    let _ = println!(rt; "PROOF   a proof's file, as prove_and_verify writes it");
    let _ = println!(rt; "TICKET  the same proof as a ticket");
    let _ = println!(rt; "The first is read. The second is written; it must not be there yet");
}

// The names of two files, the second and the third argument. Each that is wrong has a message of its own.
fn names<'a>(
    rt: &(impl Env + Print),
    first: &str,
    second: &str,
    from: &'a mut [u8],
    to: &'a mut [u8],
) -> Option<(&'a [u8], &'a [u8])> {
    let from = Argument {
        place: 2,
        name: first,
    }
    .path(rt, from);
    let to = Argument {
        place: 3,
        name: second,
    }
    .path(rt, to);
    Some((from?, to?))
}

// With four words on the command line, the program's name among them.
fn run(rt: &(impl Env + Files + Print)) {
    let mut from = [0u8; 4096];
    let mut to = [0u8; 4096];
    if arguments::is_word(rt, 1, b"write") {
        if let Some((proof, ticket)) = names(rt, "PROOF", "TICKET", &mut from, &mut to) {
            convert::write(rt, proof, ticket);
        }
    } else if arguments::is_word(rt, 1, b"read") {
        if let Some((ticket, proof)) = names(rt, "TICKET", "PROOF", &mut from, &mut to) {
            convert::read(rt, ticket, proof);
        }
    } else {
        say_usage(rt);
    }
}

fn main(rt: HostRuntime) {
    if arguments::count(&rt) == 4 {
        run(&rt);
    } else {
        say_usage(&rt);
    }
}
