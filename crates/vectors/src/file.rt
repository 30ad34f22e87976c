// The stored lists as files, and what is said of them.
use std::io::Read;
use text::input::FetchError;
use text::lines::LineReader;

// Says why the reading of a list ended before the list did, at the line of this number.
fn say_unread(rt: &impl Print, name: &str, number: u64, error: FetchError) {
    let why = match error {
        FetchError::TooLong => "too long",
        FetchError::Unreadable => "can't be read",
    };
    let _ = println!(rt; "{name} line {number}: {why}");
}

// Reads a list's next line: whether there is one. None where it can't be read, and a message says why.
pub fn is_line_read(
    rt: &impl Print,
    name: &str,
    list: &mut impl Read,
    reader: &mut LineReader,
) -> Option<bool> {
    reader
        .advance(list)
        .inspect_err(|error| say_unread(rt, name, reader.number(), *error))
        .ok()
}

// Says how many of what a list has come out equal, and answers whether all have.
pub fn say_counts(rt: &impl Print, what: &str, equal: u64, all: u64) -> bool {
    let _ = println!(rt; "{what}: {equal} of {all}");
    equal == all
}
