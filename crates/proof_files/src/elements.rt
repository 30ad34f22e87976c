// Elements as text, one to a line: the data in hexadecimal, `-` where it is empty, and perhaps a space and the index in decimal.
ghost use Rattle.std.specs.Prelude.{◌≤◌, ◌<◌, length, IfOk};

use centralized_telescope::Lent;
use std::io::Write;
use std::{fmt, io};
use text::{hex, number, words};

// What is wrong with a line.
#[derive(Clone, Copy, Debug, PartialEq, Eq)]
pub enum LineFault {
    // not of that form
    Malformed,
    // over 4,096 data bytes
    TooLong,
    // more elements than the list has room for
    TooMany,
    // more data bytes than the list has room for
    TooMuch,
}

// In words, for the room that the programs have.
impl fmt::Display for LineFault {
    fn fmt<W: fmt::Write>(&self, f: &mut fmt::Formatter<W>) -> fmt::Result {
        let words = match self {
            LineFault::Malformed => {
                "expected data in hexadecimal, small letters and two digits a byte, or -, and perhaps a space and an index"
            }
            LineFault::TooLong => "over 4096 data bytes in one element",
            LineFault::TooMany => "more than 65536 elements in all",
            LineFault::TooMuch => "more than 1048576 data bytes in all",
        };
        f.write_str(words)
    }
}

// ---- Reading

// The index that a line has, or none.
pub(crate) fn index_of(line: &[u8]) -> Result<Option<u64>, LineFault> {
    match words::count(line) {
        1 => Ok(None),
        2 => number::decimal(words::word(line, 1))
            .map(Some)
            .ok_or(LineFault::Malformed),
        _ => Err(LineFault::Malformed),
    }
}

// The data bytes that a line's first word writes, put at the start of `out`: how many they are.
pub(crate) fn write_data(line: &[u8], out: &mut [u8]) -> Result<usize, LineFault>
    ensures { IfOk result (λ n. n ≤ length out.new) }
{
    let word = words::first(line);
    if word == b"-".as_slice() {
        return Ok(0);
    }
    let len = word.len() / 2;
    if 4096 < len {
        return Err(LineFault::TooLong);
    }
    if out.len() < len {
        return Err(LineFault::TooMuch);
    }
    if word.is_empty() {
        return Err(LineFault::Malformed);
    }
    hex::unhex(word, out).ok_or(LineFault::Malformed)
}

// ---- One place of a list

// The data bytes of the element at a place; none where the list has no such place.
fn data_at<'d>(list: Lent<'d, '_>, place: usize) -> &'d [u8] {
    if list.ends.len() <= place {
        return &[];
    }
    let end = (list.ends[place] as usize).min(list.data.len());
    let start = start_at(list.ends, place).min(end);
    &list.data[start..end]
}

// The end before the one at a place, or 0. The library's own is private: it answers of accepted lists alone.
fn start_at(ends: &[u32], place: usize) -> usize
    requires { place < length ends.now }
{
    if place == 0 {
        return 0;
    }
    ends[place - 1] as usize
}

// The index of the element at a place; none where the mark isn't 1, or where the list has no such place.
fn index_at(list: Lent, place: usize) -> Option<u64> {
    if list.marks.get(place) != Some(&1) {
        return None;
    }
    list.indexes.get(place).copied()
}

// Whether two places of a list have the same element: the same data and mark and, where the mark is 1, the same index.
pub fn are_same(list: Lent, a: usize, b: usize) -> bool {
    index_at(list, a) == index_at(list, b) && data_at(list, a) == data_at(list, b)
}

// What data makes of a key. Each step is kept below 32,749, a prime.
fn data_key(data: &[u8]) -> u64
    ensures { result < 32749 }
{
    let mut key = 0;
    for byte in data {
        key = (key * 31 + u64::from(*byte)) % 32749;
    }
    key
}

// A number below 32,749 that an element's data and index tell: the same elements have the same, and others mostly another.
pub fn key_at(list: Lent, place: usize) -> u64
    ensures { result < 32749 }
{
    let index = index_at(list, place).unwrap_or(0);
    (data_key(data_at(list, place)) + index % 32749) % 32749
}

// ---- Writing

// Writes the element at a place of a list as a line.
pub fn write_line(out: &mut impl Write, list: Lent, place: usize) -> io::Result<()> {
    let data = data_at(list, place);
    if data.is_empty() {
        write!(out, "-")?;
    }
    hex::write(out, data)?;
    if let Some(index) = index_at(list, place) {
        write!(out, " {index}")?;
    }
    writeln!(out)
}
