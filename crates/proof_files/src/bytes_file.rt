// A file as the bytes that it has.
ghost use Rattle.std.specs.Prelude.{◌≤◌, length, IfOk};

use crate::opening;
use crate::report::say_of_file;
use std::fs::OpenFile;
use std::io::Write;
use std::rt::Files;
use text::input;
use text::input::FetchError;

// A file's bytes over the first of what is lent: how many they are. Where it can't be opened or read, a message says so.
pub fn read_bytes<R: Files + Print>(
    rt: &R,
    name: &[u8],
    out: &mut [u8],
) -> Result<usize, FetchError>
    ensures { IfOk result (λ len. len ≤ length out.new) }
{
    let mut file = opening::open_or_say(rt, name).ok_or(FetchError::Unreadable)?;
    let fetched = input::read_whole(&mut file, out);
    if fetched == Err(FetchError::Unreadable) {
        say_of_file(rt, name, "can't be read to its end");
    }
    fetched
}

// Whether the file could be made, as a new one, and written whole.
pub fn is_bytes_written<R: Files>(rt: &R, name: &[u8], bytes: &[u8]) -> bool {
    opening::is_written(rt, name, |file| file.write_all(bytes))
}
