// Makes a proof from a file of elements, writes it to a file and verifies it; before it searches it says whether two elements are the same.
//
//     prove_and_verify ELEMENTS PROOF SET_SIZE U C [SECOND]
//     prove_and_verify ELEMENTS PROOF SET_SIZE PROOF_SIZE MAX_RETRIES SEARCH_WIDTH DFS_BOUND X [SECOND]
//     prove_and_verify prepare ELEMENTS SETTINGS
//     prove_and_verify commit DIGEST ELEMENTS PROOF SETTINGS
//
// The first takes the small case's settings for proofs of U elements and completeness C, the second each setting by itself. ELEMENTS has an
// element to a line: its data in hexadecimal, `-` where it is empty, and perhaps a space and its index in decimal. PROOF is a new
// file, made once a proof is found: a line `proof R S`, then its elements, in the same form. C is a whole number, or 0x and the 16
// hexadecimal digits of a double's bits; X has 32 hexadecimal digits. SECOND is another file of elements: the proof is then over the pool,
// the elements of ELEMENTS and behind them those of SECOND that equal none of these. There is room for 65,536 elements of 1,048,576 data
// bytes in all, in both files together, and for 524,288 data bytes in a proof: with the deepest search, that is what fits the system's
// ordinary stack of 8 MB.
//
// `prepare` searches nothing and writes no file. It says what would be searched, how many steps that takes at most, and a digest of 64
// hexadecimal digits, or why a search would be refused. `commit` takes the digest and makes a proof as above, where settings and elements
// are those that were prepared; otherwise it refuses with 46 before it searches. SETTINGS are SET_SIZE U C, or the six from SET_SIZE to X.
// These two words are commands wherever they come first: a file of such a name is called `./prepare` or `./commit`.
#![tactic(auto)]

mod both_files;
mod pool;
mod prepare;
mod repeats;
mod search;
mod write_and_verify;

use arguments::{Argument, PastLimits, Reading, is_word};
use centralized_telescope::Params;
use pool::Names;
use std::rt::{Env, Files};

fn say_usage(rt: &impl Print) {
    let _ = println!(rt; "usage: prove_and_verify ELEMENTS PROOF SET_SIZE U C [SECOND]");
    let _ = println!(rt;
        "       prove_and_verify ELEMENTS PROOF SET_SIZE PROOF_SIZE MAX_RETRIES SEARCH_WIDTH DFS_BOUND X [SECOND]"
    );
    let _ = println!(rt; "       prove_and_verify prepare ELEMENTS SETTINGS");
    let _ = println!(rt; "       prove_and_verify commit DIGEST ELEMENTS PROOF SETTINGS");
    let _ = println!(rt;
        "ELEMENTS  a file of elements, one to a line: data in hexadecimal, or -, and perhaps a space and the index"
    );
    let _ = println!(rt;
        "PROOF     the file that the proof is written to, once one is found; it must not be there yet"
    );
    let _ = println!(rt;
        "U, C      proof size and completeness of the small case; C a whole number, or 0x and 16 hexadecimal digits of a double"
    );
    let _ = println!(rt; "X         the threshold of 128 bits, in 32 hexadecimal digits");
    let _ = println!(rt;
        "SECOND    another file of elements: those that equal none of ELEMENTS are added to them, and the proof is over all"
    );
    let _ = println!(rt;
        "SETTINGS  SET_SIZE U C, or SET_SIZE PROOF_SIZE MAX_RETRIES SEARCH_WIDTH DFS_BOUND X"
    );
    let _ = println!(rt; "DIGEST    what `prepare` printed of the run, 64 hexadecimal digits");
}

// Room for a file's name, whose limit messages name: a `Vec` would take longer ones, and may fail for want of memory.
type NameRoom = [u8; 4096];

// Settings from argument `first` on; what is past its limits the library refuses by number.
fn from(first: usize) -> Reading {
    Reading {
        first,
        past_limits: PastLimits::Read,
    }
}

// A file's name, where argument i has one; otherwise a message says so.
fn path<'a>(
    rt: &(impl Env + Print),
    place: usize,
    name: &str,
    room: &'a mut NameRoom,
) -> Option<&'a [u8]> {
    Argument { place, name }.path(rt, room)
}

// A proof under settings, over the elements of a file. Each name that is wrong has a message of its own.
fn make_proof(rt: &(impl Env + Files + Print), p: Params) {
    let (mut own, mut new) = ([0; 4096], [0; 4096]);
    let elements = path(rt, 1, "ELEMENTS", &mut own);
    let proof = path(rt, 2, "PROOF", &mut new);
    if let (Some(elements), Some(proof)) = (elements, proof) {
        search::run(rt, p, None, elements, proof);
    }
}

// The same over the pool of two files, the second of which is argument i.
fn make_pool_proof(rt: &(impl Env + Files + Print), p: Params, i: usize) {
    let (mut own, mut new, mut other) = ([0; 4096], [0; 4096], [0; 4096]);
    let elements = path(rt, 1, "ELEMENTS", &mut own);
    let proof = path(rt, 2, "PROOF", &mut new);
    let second = path(rt, i, "SECOND", &mut other);
    if let (Some(elements), Some(proof), Some(second)) = (elements, proof, second) {
        pool::run(
            rt,
            p,
            Names {
                elements,
                second,
                proof,
            },
        );
    }
}

// What a search under settings would be, and its digest.
fn prepare_run(rt: &(impl Env + Files + Print), p: Params) {
    let mut own = [0; 4096];
    if let Some(elements) = path(rt, 2, "ELEMENTS", &mut own) {
        prepare::run(rt, p, elements);
    }
}

// A proof as above, if the run is the one that was prepared.
fn commit_run(rt: &(impl Env + Files + Print), p: Params) {
    let digest = Argument {
        place: 2,
        name: "DIGEST",
    }
    .digest(rt);
    let (mut own, mut new) = ([0; 4096], [0; 4096]);
    let elements = path(rt, 3, "ELEMENTS", &mut own);
    let proof = path(rt, 4, "PROOF", &mut new);
    if let (Some(digest), Some(elements), Some(proof)) = (digest, elements, proof) {
        search::run(rt, p, Some(digest), elements, proof);
    }
}

// What a run is made of: what the words ask for, with the settings that they write. None where there are no such settings, which was said,
// or the words are none of the program's.
fn run(rt: &(impl Env + Files + Print), words: usize) -> Option<()> {
    // The program's own name is among the words.
    if is_word(rt, 1, b"prepare") {
        match words {
            6 => prepare_run(rt, from(3).small_case(rt)?),
            9 => prepare_run(rt, from(3).each_by_itself(rt)?),
            _ => say_usage(rt),
        }
        return Some(());
    }
    if is_word(rt, 1, b"commit") {
        match words {
            8 => commit_run(rt, from(5).small_case(rt)?),
            11 => commit_run(rt, from(5).each_by_itself(rt)?),
            _ => say_usage(rt),
        }
        return Some(());
    }
    match words {
        6 => make_proof(rt, from(3).small_case(rt)?),
        7 => make_pool_proof(rt, from(3).small_case(rt)?, 6),
        9 => make_proof(rt, from(3).each_by_itself(rt)?),
        10 => make_pool_proof(rt, from(3).each_by_itself(rt)?, 9),
        _ => say_usage(rt),
    }
    Some(())
}

fn main(rt: HostRuntime) {
    let _ = run(&rt, arguments::count(&rt));
}
