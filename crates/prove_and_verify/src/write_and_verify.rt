// A proof written out as a list, into its file, and verified.
use centralized_telescope::{Lent, Params};
use outcomes::{say_outcome, say_refused};
use proof_files::{Counters, ListRoom, is_proof_written, say_written};
use std::rt::Files;

// Room for a proof's elements: for 1,024 of them, 512 data bytes each.
type ProofRoom = ListRoom<524288, 1024>;

// The list of a proof's elements into its file, and what the verifier says of it.
fn finish(rt: &(impl Files + Print), p: Params, name: &[u8], counters: Counters, list: Lent) {
    let written = is_proof_written(rt, name, counters, list);
    if !say_written(rt, name, written, "the proof is written") {
        return;
    }
    match centralized_telescope::verify(p, counters.retry, counters.search, list) {
        Ok(()) => {
            let _ = println!(rt; "green");
        }
        Err(rejection) => say_outcome(rt, "dark", rejection),
    }
}

// The elements at the places, as the proof's own list: written and verified.
pub fn run(
    rt: &(impl Files + Print),
    p: Params,
    name: &[u8],
    counters: Counters,
    places: &[u32],
    list: Lent,
) {
    let mut own = ProofRoom::new();
    match centralized_telescope::write_proof(places, list, &mut own.buffers()) {
        Ok(bytes) => finish(rt, p, name, counters, own.lent(places.len(), bytes)),
        Err(k) => say_refused(rt, k),
    }
}
