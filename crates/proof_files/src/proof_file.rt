// A proof's file: a line `proof R S`, then its elements, one to a line.
ghost use Rattle.proof_files.specs.Rooms.{SameRoom};

use crate::elements_file::Unread;
use crate::list::ElementList;
use crate::report::{say_of_file, say_of_line};
use crate::{elements, elements_file, opening};
use centralized_telescope::{Lent, RetryCounter, SearchCounter};
use std::io;
use std::io::{Read, Write};
use std::rt::Files;
use text::input::FetchError;
use text::lines::LineReader;
use text::{number, words};

// R and S of a proof.
#[derive(Clone, Copy)]
pub struct Counters {
    pub retry: RetryCounter,
    pub search: SearchCounter,
}

// ---- Writing

fn write_lines(out: &mut impl Write, counters: Counters, list: Lent) -> io::Result<()> {
    let RetryCounter(retry) = counters.retry;
    let SearchCounter(search) = counters.search;
    writeln!(out, "proof {retry} {search}")?;
    for place in 0..list.ends.len() {
        elements::write_line(out, list, place)?;
    }
    Ok(())
}

// Whether the file could be made, as a new one, and written whole.
pub fn is_proof_written<R: Files>(rt: &R, name: &[u8], counters: Counters, list: Lent) -> bool {
    opening::is_written(rt, name, |file| write_lines(file, counters, list))
}

// ---- Reading

// What a line `proof R S` says.
fn counters_of(line: &[u8]) -> Option<Counters> {
    if words::count(line) != 3 || words::first(line) != b"proof".as_slice() {
        return None;
    }
    Some(Counters {
        retry: RetryCounter(number::decimal(words::word(line, 1))?),
        search: SearchCounter(number::decimal(words::word(line, 2))?),
    })
}

// The counters of the first line, or a message.
fn read_counters(
    rt: &impl Print,
    name: &[u8],
    file: &mut impl Read,
    reader: &mut LineReader,
) -> Result<Counters, Unread> {
    let counters = match reader.advance(file) {
        Ok(true) => counters_of(reader.text()),
        Err(FetchError::Unreadable) => {
            say_of_file(rt, name, "can't be read to its end");
            return Err(Unread);
        }
        _ => None,
    };
    if counters.is_none() {
        say_of_line(
            rt,
            name,
            1,
            "expected proof R S: R and S in decimal, one space before each",
        );
    }
    counters.ok_or(Unread)
}

// The file's R and S, and its elements into a list. Where it isn't read whole, a message says why.
pub fn read_proof<R: Files + Print>(
    rt: &R,
    name: &[u8],
    list: &mut ElementList,
) -> Result<Counters, Unread>
    ensures { SameRoom list.old list.new }
{
    let mut file = opening::open_or_say(rt, name).ok_or(Unread)?;
    let mut reader = LineReader::new();
    let counters = read_counters(rt, name, &mut file, &mut reader)?;
    elements_file::read_lines(rt, name, &mut file, &mut reader, list)?;
    Ok(counters)
}
