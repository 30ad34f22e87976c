// A stored question asked of the library; what it answers, into a lent text. A question is a line up to its ` =`. None: it lacks its form.
// Each kind of question stands in a function that is always called. Within one for all, each line would clear the room that `prove` alone
// takes, and loops over its bytes would count in memory.
ghost use Rattle.std.specs.Prelude.{◌≡◌, if◌then◌else◌};
ghost use Rattle.std.specs.Float.Ieee.{of_bits};
ghost use Rattle.std.specs.Float.{binary64};
ghost use Rattle.text.specs.Decimal.{is_decimal, decimal_value};
ghost use Rattle.text.specs.Hexadecimal.{is_sixteen, sixteen_value};
ghost use Rattle.text.specs.Words.{first_word, behind_words};

use crate::said::{Said, said};
use centralized_telescope::SmallSettings;
use std::fmt::Write;
use text::{double, hex, words};

pub fn read_number(question: &[u8], n: usize) -> Option<u64>
    ensures { let word = first_word (behind_words n question.now) in
        result ≡ (if is_decimal word then Some (decimal_value word) else None) }
{
    text::number::decimal(words::word(question, n))
}

// A double, where a word writes one by its bits.
pub fn read_double(question: &[u8], n: usize) -> Option<f64>
    ensures { let word = first_word (behind_words n question.now) in
        result ≡ (if is_sixteen word then Some (of_bits binary64 (sixteen_value word)) else None) }
{
    hex::sixteen_digits(words::word(question, n)).map(double::of_bits)
}

// An answer that is a refusal's number.
pub fn said_refused(text: &mut Said, refused: impl Into<u32>) -> Option<()> {
    said(text, &[u64::from(refused.into())])
}

// uniform H N
#[inline(never)]
pub fn uniform(question: &[u8], text: &mut Said) -> Option<()> {
    let hash = hex::bytes(words::word(question, 1))?;
    let n = read_number(question, 2)?;
    if words::count(question) != 3 {
        return None;
    }
    match sampling::sample_uniform(hash, n) {
        Ok(Some(value)) => said(text, &[0, value]),
        Ok(None) => said(text, &[1]),
        Err(refused) => said_refused(text, refused),
    }
}

// bernoulli H Q: the converter makes X of q, and the sampler takes X.
#[inline(never)]
pub fn bernoulli(question: &[u8], text: &mut Said) -> Option<()> {
    let hash = hex::bytes(words::word(question, 1))?;
    let q = read_double(question, 2)?;
    if words::count(question) != 3 {
        return None;
    }
    match sampling::threshold_of(q) {
        Ok(x) => said(text, &[u64::from(sampling::sample_bernoulli(hash, x))]),
        Err(refused) => said_refused(text, refused),
    }
}

// The small case's settings: 0, every setting but set_size, and X.
fn said_settings(s: SmallSettings, text: &mut Said) -> Option<()> {
    let SmallSettings {
        proof_size,
        max_retries,
        search_width,
        dfs_bound,
        x,
    } = s;
    let hi = x.hi;
    let lo = x.lo;
    said(text, &[0, proof_size, max_retries, search_width, dfs_bound])?;
    write!(text, " {hi:016x}{lo:016x}").ok()
}

// small U C
#[inline(never)]
pub fn small(question: &[u8], text: &mut Said) -> Option<()> {
    let u = read_number(question, 1)?;
    let c = read_double(question, 2)?;
    if words::count(question) != 3 {
        return None;
    }
    match centralized_telescope::param_small_case(u, c) {
        Ok(s) => said_settings(s, text),
        Err(k) => said_refused(text, k),
    }
}
