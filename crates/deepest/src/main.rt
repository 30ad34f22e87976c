// Searches as deep as the settings admit, 1,024 elements, and verifies the proof. It runs under the system's ordinary stack, and that
// it ends is what it shows: each element of a chain has a frame of its own while the search goes on.
#![tactic(auto)]

ghost use Rattle.std.specs.Prelude.{◌≡◌, ◌≤◌, length};

use centralized_telescope::{Lent, Params, RetryCounter, Search, SearchCounter};
use outcomes::say_outcome;
use sampling::U128;

// One bin, and in it one element: a chain of each length, which the bound just admits. The verifier wants R below max_retries. X is the
// greatest: one hash in 2^128 doesn't pass.
fn settings() -> Params {
    Params {
        set_size: 1,
        proof_size: 1024,
        max_retries: 2,
        search_width: 1,
        dfs_bound: 1025,
        x: U128 {
            hi: u64::MAX,
            lo: u64::MAX,
        },
    }
}

// How many of the places are the first one.
fn first_places(places: &[u32]) -> usize
    ensures { result ≤ length places.now }
{
    places.iter().filter(|place| **place == 0).count()
}

// Where the data of 1,024 elements stops, of a byte each.
fn ends_of_bytes() -> [u32; 1024]
    ensures { 1024 ≡ length result }
{
    let mut ends = [0u32; 1024];
    for (i, end) in ends.iter_mut().enumerate() {
        *end = i as u32 + 1;
    }
    ends
}

// The proof's list has the element 1,024 times.
fn say_verdict(rt: &impl Print, retry_counter: RetryCounter, search_counter: SearchCounter) {
    let list = Lent {
        data: &[b'a'; 1024],
        ends: &ends_of_bytes(),
        marks: &[1; 1024],
        indexes: &[7; 1024],
    };
    match centralized_telescope::verify(settings(), retry_counter, search_counter, list) {
        Ok(()) => {
            let _ = println!(rt; "the verifier accepts it");
        }
        Err(rejection) => say_outcome(rt, "THE VERIFIER REFUSES IT", rejection),
    }
}

fn say_found(
    rt: &impl Print,
    retry_counter: RetryCounter,
    search_counter: SearchCounter,
    count: u64,
    places: &[u32],
) {
    let r = retry_counter.0;
    let s = search_counter.0;
    let first = first_places(places);
    let _ = println!(rt;
        "found with R {r}, S {s} after {count} steps\nplaces that are the first: {first} of 1024"
    );
}

fn main(rt: HostRuntime) {
    let list = Lent {
        data: b"a",
        ends: &[1],
        marks: &[1],
        indexes: &[7],
    };
    let mut places = [1u32; 1024];
    let mut table = [0u32; 4];
    match centralized_telescope::prove(settings(), list, &mut places, &mut table) {
        Ok(Search::Found(retry_counter, search_counter, count)) => {
            say_found(&rt, retry_counter, search_counter, count, &places);
            say_verdict(&rt, retry_counter, search_counter);
        }
        Ok(nothing) => say_outcome(&rt, "NOT FOUND", nothing),
        Err(k) => say_outcome(&rt, "NOT FOUND", k),
    }
}
