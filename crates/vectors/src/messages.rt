// A stored list of messages: on each line a message, a space and its digest, both in hexadecimal.
ghost use Rattle.std.specs.Prelude.{◌≡◌, ◌+◌, ◌*◌, ◌≤◌, ◌<◌, IfSome};

use crate::{file, ways};
use std::io::Read;
use std::rt::Files;
use text::hex;
use text::lines::LineReader;

// More lines than any list has that is meant.
const MOST_LINES: usize = 1024;

// What came of a list: how many lines it has, how many of them came out whole and in how many ways all together; and the numbers of the
// first line that lacks its form and of the first that came out otherwise, counted from 1.
#[derive(Clone, Copy)]
pub struct Report {
    pub lines: usize,
    pub whole: usize,
    pub ways: usize,
    pub malformed: Option<usize>,
    pub unequal: Option<usize>,
    ghost most_lines: { lines ≤ 1024 },
    ghost whole_lines: { whole ≤ lines },
    ghost eight_ways: { ways ≤ 8 * lines },
}

impl Report {
    // Of no line.
    fn new() -> Report
        ensures { result.lines ≡ 0 }
    {
        Report {
            lines: 0,
            whole: 0,
            ways: 0,
            malformed: None,
            unequal: None,
        }
    }

    // With one line more, which came out in so many ways, or lacks its form.
    fn with_line(self, equal: Option<usize>) -> Report
        requires { (self.lines < 1024) × IfSome equal (λ n. n ≤ 8) }
        ensures { result.lines ≡ self.lines + 1 }
    {
        let number = self.lines + 1;
        let is_whole = equal == Some(8);
        Report {
            lines: number,
            whole: self.whole + usize::from(is_whole),
            ways: self.ways + equal.unwrap_or(0),
            malformed: self.malformed.or(equal.is_none().then_some(number)),
            unequal: self
                .unequal
                .or((equal.is_some() && !is_whole).then_some(number)),
        }
    }
}

// In how many of the eight ways a line's digest came out; none where the line lacks its form. The digest has 64 digits, which tells where
// the space must stand.
fn run_line(line: &[u8], number: usize) -> Option<usize>
    ensures { IfSome result (λ n. n ≤ 8) }
{
    let (message, digest) = line.split_at_checked(line.len().checked_sub(64)?)?;
    let mut bytes = [0u8; 512];
    let len = hex::unhex(message.strip_suffix(b" ")?, &mut bytes)?;
    let wanted = hex::bytes(digest)?;
    Some(ways::equal_ways(&bytes[..len], wanted, number))
}

// Every line of an open list. The report counts the lines itself, since it has those of a list that ends before the turns do.
fn run_open(rt: &impl Print, name: &str, list: &mut impl Read) -> Report {
    let mut report = Report::new();
    let mut reader = LineReader::new();
    for number in 1..=MOST_LINES {
        if file::is_line_read(rt, name, list, &mut reader) != Some(true) {
            return report;
        }
        report = report.with_line(run_line(reader.text(), number));
    }
    report
}

// Every line of a list.
pub fn run(rt: &(impl Files + Print), name: &str) -> Report {
    match proof_files::open_or_say(rt, name.as_bytes()) {
        Some(mut list) => run_open(rt, name, &mut list),
        None => Report::new(),
    }
}
