// A proof over the elements of two files: the first file's, and behind them those of the second that equal none of these.
use crate::both_files::Sizes;
use crate::{both_files, repeats, search, write_and_verify};
use arguments::say_settings;
use centralized_telescope::{Lent, Params, Refusal, Search};
use proof_files::{FullRoom, Unread, first, is_taken, kept};
use std::rt::Files;
use text::say::say;

// The names of the files: two of elements, and the proof's.
#[derive(Clone, Copy)]
pub struct Names<'a> {
    pub elements: &'a [u8],
    pub second: &'a [u8],
    pub proof: &'a [u8],
}

fn say_read(rt: &impl Print, name: &[u8], n: usize) {
    say(rt, name);
    let _ = print!(rt; ": elements read {n}");
}

// Says what was read of each file, whether two of its elements are the same, and what the pool has.
fn say_task(rt: &impl Print, p: Params, names: Names, list: Lent, second: Lent) {
    say_settings(rt, p);
    let n = list.ends.len();
    say_read(rt, names.elements, n);
    let _ = println!(rt);
    repeats::say_repeats(rt, names.elements, list);
    say_read(rt, names.second, second.ends.len());
    // A refusal comes from the prover too, and is said there.
    if let Ok(size) = centralized_telescope::pool_size(list, second) {
        let added = size.saturating_sub(n);
        let _ = println!(rt; ", added {added}");
        repeats::say_repeats(rt, names.second, second);
        let kept = kept(size, p.set_size);
        let _ = println!(rt; "pool: elements {size}, kept for the search {kept}");
    } else {
        let _ = println!(rt);
    }
}

// Searches over the pool. The bin table's room is given back with the answer.
fn prove(p: Params, list: Lent, second: Lent, places: &mut [u32]) -> Result<Search, Refusal> {
    let mut table = search::table_room();
    centralized_telescope::prove_pool(p, list, second, places, &mut table)
}

// Reads both files into one room, the second's elements right behind the first's, says what the task is, and searches: the end of the
// search, and how many elements and data bytes each file has.
fn read_and_search(
    rt: &(impl Files + Print),
    p: Params,
    names: Names,
    room: &mut FullRoom,
    places: &mut [u32],
) -> Result<(Result<Search, Refusal>, Sizes), Unread> {
    let mut read = room.list();
    proof_files::read_elements(rt, names.elements, &mut read)?;
    let (list, mut behind) = read.split();
    proof_files::read_elements(rt, names.second, &mut behind)?;
    let second = behind.lent();
    say_task(rt, p, names, list, second);
    let found = prove(p, list, second, places);
    Ok((found, Sizes::of(list, second)))
}

// Reads both files into one room, searches over the pool, and writes the proof's file.
pub fn run(rt: &(impl Files + Print), p: Params, names: Names) {
    if is_taken(rt, names.proof, "proof") {
        return;
    }
    let mut room = FullRoom::new();
    let mut places = [0u32; 1024];
    let Ok((found, sizes)) = read_and_search(rt, p, names, &mut room, &mut places) else {
        return;
    };
    let Some((counters, count)) = search::unless_without_proof(rt, found) else {
        return;
    };
    search::say_found(rt, counters, count, first(&places, p.proof_size as usize));
    let both = both_files::join(&mut room, sizes);
    both_files::find(&mut places, both, sizes.first);
    let chain = first(&places, p.proof_size as usize);
    write_and_verify::run(rt, p, names.proof, counters, chain, both);
}
