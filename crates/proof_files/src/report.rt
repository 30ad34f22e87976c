// What is said of files.
ghost use Rattle.std.specs.Prelude.{◌≡◌, ◌*◌, min};

use std::fmt::Display;
use text::say::say;

// A sentence about a file. Its name is printed as the bytes that it has, which need not be text.
pub fn say_of_file(rt: &impl Print, name: &[u8], what: impl Display + Drop) {
    say(rt, name);
    let _ = println!(rt; ": {what}");
}

// What is wrong with a line of a file.
pub fn say_of_line(rt: &impl Print, name: &[u8], number: u64, what: impl Display + Drop) {
    say(rt, name);
    let _ = println!(rt; ", line {number}: {what}");
}

// How many of n elements a search keeps: the first 2 * set_size.
pub fn kept(n: usize, set_size: u64) -> u64
    ensures { result ≡ min n (min (2 * set_size) 18446744073709551615) }
{
    (n as u64).min(set_size.saturating_mul(2))
}

// How many elements a file has, and how many of them a search keeps.
pub fn say_elements(rt: &impl Print, name: &[u8], n: usize, set_size: u64) {
    let kept = kept(n, set_size);
    say(rt, name);
    let _ = println!(rt; ": elements read {n}, kept for the search {kept}");
}
