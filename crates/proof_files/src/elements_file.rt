// Reading the file of elements into a list.
ghost use Rattle.proof_files.specs.Rooms.{SameRoom};

use crate::elements::LineFault;
use crate::list::ElementList;
use crate::opening;
use crate::report::{say_of_file, say_of_line};
use std::io::Read;
use std::rt::Files;
use text::input::FetchError;
use text::lines::LineReader;

// A file that isn't read whole. A message said why.
#[derive(Clone, Copy, Debug, PartialEq, Eq)]
pub struct Unread;

// Why not.
#[derive(Clone, Copy)]
enum Fault {
    Fetch(FetchError),
    Line(LineFault),
}

impl From<FetchError> for Fault {
    fn from(error: FetchError) -> Fault {
        Fault::Fetch(error)
    }
}

impl From<LineFault> for Fault {
    fn from(fault: LineFault) -> Fault {
        Fault::Line(fault)
    }
}

fn say_fault(rt: &impl Print, name: &[u8], number: u64, fault: Fault) {
    match fault {
        Fault::Fetch(FetchError::TooLong) => {
            say_of_line(rt, name, number, "longer than an element can be");
        }
        Fault::Fetch(FetchError::Unreadable) => say_of_file(rt, name, "can't be read to its end"),
        Fault::Line(fault) => say_of_line(rt, name, number, fault),
    }
}

// Line by line, to the file's end or to a line that is refused. Each line takes one of the list's places, so the turns end.
fn add_lines(
    file: &mut impl Read,
    reader: &mut LineReader,
    list: &mut ElementList,
) -> Result<(), Fault>
    ensures { SameRoom list.old list.new }
{
    while reader.advance(file)? {
        list.add_line(reader.text())?;
    }
    Ok(())
}

// The elements of a file's lines from here on into a list. Where they aren't read whole, a message says why.
pub fn read_lines(
    rt: &impl Print,
    name: &[u8],
    file: &mut impl Read,
    reader: &mut LineReader,
    list: &mut ElementList,
) -> Result<(), Unread>
    ensures { SameRoom list.old list.new }
{
    if let Err(fault) = add_lines(file, reader, list) {
        say_fault(rt, name, reader.number(), fault);
        return Err(Unread);
    }
    Ok(())
}

// The file's elements into a list. Where it isn't read whole, a message says why.
pub fn read_elements<R: Files + Print>(
    rt: &R,
    name: &[u8],
    list: &mut ElementList,
) -> Result<(), Unread>
    ensures { SameRoom list.old list.new }
{
    let mut file = opening::open_or_say(rt, name).ok_or(Unread)?;
    let mut reader = LineReader::new();
    read_lines(rt, name, &mut file, &mut reader, list)
}
