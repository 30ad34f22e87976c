// The questions that ask of the list of elements above them. They are called, as those of ask.rt are.
use crate::ask;
use crate::ask::said_refused;
use crate::said::{Said, put_number, said};
use centralized_telescope::{
    Lent, Params, Refusal, RetryCounter, Search, SearchCounter, proof_search_number, verdict_number,
};
use sampling::NotProbability;
use text::words;

// Stands in each place before a search: no list has so many elements.
const MARK: u32 = 0xffff_ffff;

// distinct
#[inline(never)]
pub fn distinct(question: &[u8], list: Lent, text: &mut Said) -> Option<()> {
    if words::count(question) != 1 {
        return None;
    }
    match centralized_telescope::check_distinct(list) {
        Ok(is_distinct) => said(text, &[u64::from(is_distinct)]),
        Err(k) => said_refused(text, k),
    }
}

// SET_SIZE PROOF_SIZE MAX_RETRIES SEARCH_WIDTH DFS_BOUND Q behind a question's first word, with q in place of X: settings, unless the
// converter refuses q, which comes before any other refusal: without X there are no settings.
fn read_settings(question: &[u8]) -> Option<Result<Params, NotProbability>> {
    let set_size = ask::read_number(question, 1)?;
    let proof_size = ask::read_number(question, 2)?;
    let max_retries = ask::read_number(question, 3)?;
    let search_width = ask::read_number(question, 4)?;
    let dfs_bound = ask::read_number(question, 5)?;
    let q = ask::read_double(question, 6)?;
    let settings = sampling::threshold_of(q).map(|x| Params {
        set_size,
        proof_size,
        max_retries,
        search_width,
        dfs_bound,
        x,
    });
    Some(settings)
}

// An answer's numbers, without its places.
fn said_numbers(text: &mut Said, answer: Result<Search, Refusal>) -> Option<()> {
    let number = u64::from(proof_search_number(answer));
    match answer {
        Ok(Search::Found(RetryCounter(retry), SearchCounter(search), count)) => {
            said(text, &[number, retry, search, count])
        }
        Ok(Search::NotFoundInBounds(count)) => said(text, &[number, count]),
        Ok(Search::NotFound(count)) => said(text, &[number, count]),
        Err(_) => said(text, &[number]),
    }
}

// Puts the places of a proof of `found` elements and, where a place past them was written, a word that no stored answer has.
fn put_places(text: &mut Said, places: &[u32], found: usize) -> Option<()> {
    let (proof, rest) = places.split_at(found.min(places.len()));
    for place in proof {
        put_number(text, *place)?;
    }
    if rest.iter().any(|place| *place != MARK) {
        text.try_push_str(" more-places-written").ok()?;
    }
    Some(())
}

// How many places a search writes.
fn places_of(answer: Result<Search, Refusal>, proof_size: u64) -> usize {
    match answer {
        Ok(Search::Found(_, _, _)) => proof_size as usize,
        _ => 0,
    }
}

// prove SETTINGS. The workspace suffices for a set_size of 1,000, and has more places than any proof.
#[inline(never)]
pub fn prove(question: &[u8], list: Lent, text: &mut Said) -> Option<()> {
    let settings = read_settings(question)?;
    if words::count(question) != 7 {
        return None;
    }
    let params = match settings {
        Ok(params) => params,
        Err(refused) => {
            return said_refused(text, refused);
        }
    };
    let mut places = [MARK; 1040];
    let mut table = [0u32; 3001];
    let answer = centralized_telescope::prove(params, list, &mut places, &mut table);
    said_numbers(text, answer)?;
    put_places(text, &places, places_of(answer, params.proof_size))
}

// verify SETTINGS R S
#[inline(never)]
pub fn verify(question: &[u8], list: Lent, text: &mut Said) -> Option<()> {
    let settings = read_settings(question)?;
    let retry = ask::read_number(question, 7)?;
    let search = ask::read_number(question, 8)?;
    if words::count(question) != 9 {
        return None;
    }
    let params = match settings {
        Ok(params) => params,
        Err(refused) => {
            return said_refused(text, refused);
        }
    };
    let verdict = centralized_telescope::verify(
        params,
        RetryCounter(retry),
        SearchCounter(search),
        list,
    );
    said(text, &[u64::from(verdict_number(verdict))])
}
