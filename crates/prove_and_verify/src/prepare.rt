// What a search would be, and its digest, without a search.
use crate::search;
use centralized_telescope::{Lent, Params, Refusal};
use outcomes::say_refused;
use proof_files::FullRoom;
use std::io::writer;
use std::rt::Files;
use text::hex;

// How many steps a search under these settings makes at most.
fn say_most_steps(rt: &impl Print, p: Params) {
    // A refusal can't come: prepare accepted these settings.
    if let Ok(amounts) = centralized_telescope::plan(p, 0) {
        let steps = amounts.most_steps;
        let _ = println!(rt; "steps: at most {steps}");
    }
}

fn say_digest(rt: &impl Print, digest: &[u8]) {
    let _ = print!(rt; "digest: ");
    let _ = hex::write(&mut writer(rt), digest);
    let _ = println!(rt);
}

// With as much room as a search would have.
fn prepare(p: Params, list: Lent) -> Result<[u8; 32], Refusal> {
    let places = [0u32; 1024];
    let table = search::table_room();
    centralized_telescope::prepare(p, list, &places, &table)
}

// Reads the file of elements, and says what a search over them would be and its digest.
pub fn run(rt: &(impl Files + Print), p: Params, elements: &[u8]) {
    let mut room = FullRoom::new();
    let Some(list) = search::read_task(rt, p, elements, &mut room) else {
        return;
    };
    match prepare(p, list) {
        Ok(digest) => {
            say_most_steps(rt, p);
            say_digest(rt, &digest);
        }
        Err(k) => say_refused(rt, k),
    }
}
