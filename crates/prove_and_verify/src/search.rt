// The search for a proof, and what came of it.
ghost use Rattle.std.specs.Prelude.{◌≡◌, length};

use crate::{repeats, write_and_verify};
use arguments::say_settings;
use centralized_telescope::{Lent, Params, Refusal, RetryCounter, Search, SearchCounter};
use outcomes::{say_outcome, say_refused};
use proof_files::{Counters, FullRoom, first, is_taken, say_elements};
use std::rt::Files;

// Room for the bin table of the largest set size. A function of its own: its caller's proof then sees a length, and not that many numbers.
// The library has such a function for a table that it builds itself. It is private, since its users lend the table, in a room of their own.
pub fn table_room() -> [u32; 98305]
    ensures { 98305 ≡ length result }
{
    [0; 98305]
}

pub fn say_found(rt: &impl Print, counters: Counters, count: u64, places: &[u32]) {
    let RetryCounter(retry) = counters.retry;
    let SearchCounter(search) = counters.search;
    let _ = println!(rt; "found: R {retry}, S {search}, steps {count}");
    let _ = print!(rt; "places:");
    for place in places {
        let _ = print!(rt; " {place}");
    }
    let _ = println!(rt);
}

// What came of a search that found nothing, with its step count.
fn say_not_found(rt: &impl Print, end: Search, count: u64) {
    let _ = print!(rt; "not found, steps {count}");
    say_outcome(rt, "", end);
}

// What came of a search: what was found, if anything. Of anything else it is said what it is.
pub fn unless_without_proof(
    rt: &impl Print,
    found: Result<Search, Refusal>,
) -> Option<(Counters, u64)> {
    match found {
        Ok(Search::Found(retry, search, count)) => Some((Counters { retry, search }, count)),
        Ok(end @ (Search::NotFoundInBounds(count) | Search::NotFound(count))) => {
            say_not_found(rt, end, count);
            None
        }
        Err(k) => {
            say_refused(rt, k);
            None
        }
    }
}

// A proof of whatever run it is, or of the run that was prepared, which has this digest. It is an Option, since the digest is what the user
// gave or didn't; a closure over it would go through three functions, each with a type parameter and a `requires` for it.
fn find(
    p: Params,
    prepared: Option<[u8; 32]>,
    list: Lent,
    places: &mut [u32],
) -> Result<Search, Refusal> {
    let mut table = table_room();
    match prepared {
        None => centralized_telescope::prove(p, list, places, &mut table),
        Some(digest) => centralized_telescope::commit(p, digest, list, places, &mut table),
    }
}

// Searches, and says what came of it.
fn search(
    rt: &(impl Files + Print),
    p: Params,
    prepared: Option<[u8; 32]>,
    proof: &[u8],
    list: Lent,
) {
    let mut places = [0u32; 1024];
    let found = find(p, prepared, list, &mut places);
    if let Some((counters, count)) = unless_without_proof(rt, found) {
        let chain = first(&places, p.proof_size as usize);
        say_found(rt, counters, count, chain);
        write_and_verify::run(rt, p, proof, counters, chain, list);
    }
}

pub fn say_task(rt: &impl Print, p: Params, elements: &[u8], n: usize) {
    say_settings(rt, p);
    say_elements(rt, elements, n, p.set_size);
}

// Reads the file of elements into the room, and says what a search over them is and whether two elements are the same, which the prover
// doesn't ask. None where the file isn't read, which was said.
pub fn read_task<'a>(
    rt: &(impl Files + Print),
    p: Params,
    elements: &[u8],
    room: &'a mut FullRoom,
) -> Option<Lent<'a, 'a>> {
    let mut read = room.list();
    proof_files::read_elements(rt, elements, &mut read).ok()?;
    let (list, _) = read.split();
    say_task(rt, p, elements, list.ends.len());
    repeats::say_repeats(rt, elements, list);
    Some(list)
}

// Reads the file of elements, searches, and writes the proof's file, which must be new: no file is overwritten, and above all not the
// elements'. That is asked before the search, which may be long.
pub fn run(
    rt: &(impl Files + Print),
    p: Params,
    prepared: Option<[u8; 32]>,
    elements: &[u8],
    proof: &[u8],
) {
    if is_taken(rt, proof, "proof") {
        return;
    }
    let mut room = FullRoom::new();
    if let Some(list) = read_task(rt, p, elements, &mut room) {
        search(rt, p, prepared, proof, list);
    }
}
