// An open file read by its lines.
ghost use Rattle.std.specs.Prelude.{◌≡◌, ◌+◌, ◌≤◌, ◌<◌, length, take, drop, min, IfSome};

use crate::input;
use crate::input::FetchError;
use std::io::Read;

// A line and its end fit into so many bytes.
pub const LINE_ROOM: usize = 16384;

// Reads a file's lines, one after the other, in a room of its own: no `BufReader`, which may fail for want of memory, and has no limit of a
// line's length. Of the room, from `start` to `end` is the line that was read last, without its line end, and
// from `next` to `filled` what was read of those after it.
#[derive(Drop)]
pub struct LineReader {
    room: [u8; LINE_ROOM],
    number: u64,
    start: usize,
    end: usize,
    next: usize,
    filled: usize,
    ghost places: { (start ≤ end) × (end ≤ next) × (next ≤ filled) × (filled ≤ 16384) },
}

// Where the first line end is.
fn line_end(bytes: &[u8]) -> Option<usize>
    ensures { IfSome result (λ n. n < length bytes.now) }
{
    bytes.iter().position(|byte| *byte == b'\n')
}

impl LineReader {
    // Before the first line, which has the number 1.
    pub fn new() -> LineReader
        ensures { (result.number ≡ 0) × (result.filled ≡ 0) }
    {
        LineReader {
            room: [0; LINE_ROOM],
            number: 0,
            start: 0,
            end: 0,
            next: 0,
            filled: 0,
        }
    }

    // The line that was read last, without its line end; nothing where none was.
    pub fn text(&self) -> &[u8]
        ensures { result.now ≡ drop self.now.start (take self.now.end self.now.room) }
    {
        &self.room[self.start..self.end]
    }

    // Its number, or the number of the line that couldn't be read.
    pub fn number(&self) -> u64
        ensures { result ≡ self.now.number }
    {
        self.number
    }

    // Reads the next line, as far as the room doesn't have it. False at the file's end, where there is none.
    pub fn advance(&mut self, file: &mut impl Read) -> Result<bool, FetchError>
        ensures { self.new.number ≡ min (self.old.number + 1) 18446744073709551615 }
    {
        self.number = self.number.saturating_add(1);
        let next = self.next;
        if self.take_line(next, next) {
            return Ok(true);
        }
        let part = self.move_to_front();
        self.filled = input::fill(file, &mut self.room, part)?;
        if self.take_line(0, part) {
            return Ok(true);
        }
        self.take_rest()
    }

    // Takes the line that begins at `start` and has no line end before `from`, where what was read has its line end.
    fn take_line(&mut self, start: usize, from: usize) -> bool
        requires { (start ≤ from) × (from ≤ self.old.filled) }
        ensures { self.new.number ≡ self.old.number }
    {
        let filled = self.filled;
        let Some(n) = line_end(&self.room[from..filled]) else {
            return false;
        };
        self.start = start;
        self.end = from + n;
        self.next = from + n + 1;
        true
    }

    // Moves what was read of the next line to the front, and answers how much that is. Until there is more, the room counts as empty.
    fn move_to_front(&mut self) -> usize
        ensures forgotten { (self.new.start ≡ 0) × (self.new.end ≡ 0) × (self.new.next ≡ 0) × (self.new.number ≡ self.old.number) }
        ensures bound { result ≤ 16384 }
    {
        let next = self.next;
        let filled = self.filled;
        self.room.copy_within(next..filled, 0);
        self.forget();
        filled - next
    }

    fn forget(&mut self)
        ensures { (self.new.start ≡ 0) × (self.new.end ≡ 0) × (self.new.next ≡ 0) × (self.new.number ≡ self.old.number) }
    {
        self.start = 0;
        self.end = 0;
        self.next = 0;
        self.filled = 0;
    }

    // The line that ends with the file, without a line end: all that is in the room. Where that is full, the line is longer.
    fn take_rest(&mut self) -> Result<bool, FetchError>
        ensures { self.new.number ≡ self.old.number }
    {
        let filled = self.filled;
        self.forget();
        if filled == LINE_ROOM {
            return Err(FetchError::TooLong);
        }
        self.filled = filled;
        self.next = filled;
        self.end = filled;
        Ok(0 < filled)
    }
}
