// What programs say of the library's answers: the number of the specification's table, and what it means.
//
// No function asks anything of its caller.
#![tactic(auto)]

ghost use Rattle.std.specs.Prelude.{◌≡◌};
ghost use Rattle.std.specs.Result.{result_ok};

use centralized_telescope::Refusal;
use std::fmt::Display;

// An answer's number and what it means, after a word for its kind.
pub fn say_outcome<A: Copy + Display + Into<u32>>(rt: &impl Print, kind: &str, answer: A) {
    let number: u32 = answer.into();
    let _ = println!(rt; "{kind}, number {number}: {answer}");
}

pub fn say_refused(rt: &impl Print, k: Refusal) {
    say_outcome(rt, "refused", k);
}

// What a call gives, where it gives something; what it refuses is said.
pub fn unless_refused<T>(rt: &impl Print, answer: Result<T, Refusal>) -> Option<T>
    ensures { result ≡ result_ok answer }
{
    answer.inspect_err(|k| say_refused(rt, *k)).ok()
}
