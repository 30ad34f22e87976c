// From a proof's file to a ticket's, and back.
ghost use Rattle.std.specs.Prelude.{◌≡◌, length};

use crate::report::{say_proof, say_unread};
use centralized_telescope::Lent;
use outcomes::unless_refused;
use proof_files::{Counters, FullRoom, first, is_taken, say_of_file, say_written};
use std::rt::Files;
use text::input::FetchError;

// The ticket of 65,536 elements with 1,048,576 data bytes has 3,771 blocks. A function of its own: its caller's proof then sees a length,
// and not that many bytes. No `Vec`, as for `ListRoom`.
fn ticket_room() -> [u8; 1930752]
    ensures { 1930752 ≡ length result }
{
    [0; 1930752]
}

// The ticket into its file.
fn finish_ticket(rt: &(impl Files + Print), name: &[u8], blocks: usize, bytes: &[u8]) {
    let written = proof_files::is_bytes_written(rt, name, bytes);
    say_written(
        rt,
        name,
        written,
        format_args!("the ticket is written, blocks {blocks}"),
    );
}

// The ticket of a proof that was read.
fn write_list(rt: &(impl Files + Print), name: &[u8], counters: Counters, list: Lent) {
    say_proof(rt, counters, list);
    let mut room = ticket_room();
    let Counters { retry, search } = counters;
    let written = centralized_telescope::write_ticket(retry, search, list, &mut room);
    if let Some(blocks) = unless_refused(rt, written) {
        finish_ticket(rt, name, blocks, first(&room, blocks.saturating_mul(512)));
    }
}

// Reads the proof's file and writes the ticket's. The ticket's file must be new: no file is overwritten.
pub fn write(rt: &(impl Files + Print), proof: &[u8], ticket: &[u8]) {
    if is_taken(rt, ticket, "ticket") {
        return;
    }
    let mut room = FullRoom::new();
    let mut list = room.list();
    if let Ok(counters) = proof_files::read_proof(rt, proof, &mut list) {
        write_list(rt, ticket, counters, list.lent());
    }
}

// The proof of a ticket that was read.
fn read_blocks(rt: &(impl Files + Print), name: &[u8], ticket: &[u8]) {
    let mut room = FullRoom::new();
    match centralized_telescope::read_ticket(ticket, &mut room.buffers()) {
        Ok(proof) => {
            let counters = Counters {
                retry: proof.retry,
                search: proof.search,
            };
            let list = room.lent(proof.elements, proof.bytes);
            say_proof(rt, counters, list);
            let written = proof_files::is_proof_written(rt, name, counters, list);
            say_written(rt, name, written, "the proof is written");
        }
        Err(k) => say_unread(rt, k, ticket),
    }
}

// Reads the ticket's file and writes the proof's, likewise.
pub fn read(rt: &(impl Files + Print), ticket: &[u8], proof: &[u8]) {
    if is_taken(rt, proof, "proof") {
        return;
    }
    let mut room = ticket_room();
    match proof_files::read_bytes(rt, ticket, &mut room) {
        Ok(n) => read_blocks(rt, proof, &room[..n]),
        // the program's own limit, and no answer of the library: what is in the file isn't known
        Err(FetchError::TooLong) => say_of_file(
            rt,
            ticket,
            "over 3,771 blocks, for which the program has no room; the file isn't read",
        ),
        // said where it was read
        Err(FetchError::Unreadable) => {}
    }
}
