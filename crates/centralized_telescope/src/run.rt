// What a search is made of and its digest covers.
use crate::lawful::Lawful;
use crate::lists::AcceptedList;

// Lawful settings and an accepted list. `check_run` alone makes one, where the prover refuses nothing.
#[derive(Clone, Copy)]
pub struct Run<'a> {
    pub settings: Lawful,
    pub list: AcceptedList<'a, 'a>,
}
