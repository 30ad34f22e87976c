// What the program says.
use centralized_telescope::{Lent, Refusal, RetryCounter, SearchCounter, stated_blocks};
use outcomes::say_refused;
use proof_files::Counters;
use std::cmp::Ordering;

// What a proof has.
pub fn say_proof(rt: &impl Print, counters: Counters, list: Lent) {
    let RetryCounter(retry) = counters.retry;
    let SearchCounter(search) = counters.search;
    let elements = list.ends.len();
    let bytes = list.data.len();
    let _ = println!(rt; "R {retry}, S {search}, elements {elements}, data bytes {bytes}");
}

// Why a file has another number of blocks than it states, as far as that is known, and what to do. A ticket has one block or more.
fn remedy(stated: u64, present: u64) -> &'static str {
    if stated == 0 {
        return "it may be of the first layout, which stated none. Write the ticket anew from its proof's file";
    }
    match present.cmp(&stated) {
        Ordering::Less => {
            "some are missing, or it doesn't begin as a ticket does. Fetch it from the card again"
        }
        _ => {
            "some were added, or it doesn't begin as a ticket does. Fetch only as many as are stated"
        }
    }
}

// Of a file that is no ticket: whether its number of blocks is at fault. The stated number may be any four bytes.
fn say_blocks(rt: &impl Print, stated: u64, present: u64) {
    if present == 0 {
        let _ = println!(rt; "no blocks in the file. Fetch the ticket from the card again");
        return;
    }
    if stated != present {
        let remedy = remedy(stated, present);
        let _ = println!(rt; "blocks stated {stated}, blocks in the file {present}: {remedy}");
    }
}

// Why a ticket isn't read.
pub fn say_unread(rt: &impl Print, k: Refusal, ticket: &[u8]) {
    if k == Refusal::NoTicket {
        say_blocks(rt, stated_blocks(ticket), (ticket.len() / 512) as u64);
    }
    say_refused(rt, k);
}
