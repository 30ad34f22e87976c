// Opening files by their names. The library takes a name that is text in UTF-8; one that isn't can't be opened.
ghost use Rattle.std.specs.Prelude.{◌≡◌};

use crate::report::say_of_file;
use std::fmt::Display;
use std::fs::{OpenFile, OpenOptions};
use std::rt::Files;
use std::{fs, io};

// The file of this name, to be read.
pub fn open_read<R: Files>(rt: &R, name: &[u8]) -> Option<R::File> {
    let path = str::from_utf8(name).ok()?;
    fs::open(rt, path).ok()
}

// The same, or a message.
pub fn open_or_say<R: Files + Print>(rt: &R, name: &[u8]) -> Option<R::File> {
    let file = open_read(rt, name);
    if file.is_none() {
        say_of_file(rt, name, "can't be opened");
    }
    file
}

// Whether there is a file of this name.
pub fn is_there(rt: &impl Files, name: &[u8]) -> bool {
    open_read(rt, name).is_some()
}

// Whether there is a file of this name already: none is overwritten, whatever path or link leads there. A message says so, with a word for
// what was to be written.
pub fn is_taken(rt: &(impl Files + Print), name: &[u8], what: &str) -> bool {
    let taken = is_there(rt, name);
    if taken {
        say_of_file(
            rt,
            name,
            format_args!("is there already; a {what} never overwrites a file"),
        );
    }
    taken
}

// A new file of this name, to be written. None where the name is taken.
fn create<R: Files>(rt: &R, name: &[u8]) -> Option<R::File> {
    let path = str::from_utf8(name).ok()?;
    OpenOptions::new()
        .write(true)
        .create_new(true)
        .open(rt, path)
        .ok()
}

// Whether a new file of this name could be made and written whole: what a close would say of it, the system is asked for first.
pub fn is_written<R: Files, F: FnOnce(&mut R::File) -> io::Result<()> + Drop>(
    rt: &R,
    name: &[u8],
    write: F,
) -> bool
    requires { F.IsAlwaysCallable write }
{
    let Some(mut file) = create(rt, name) else {
        return false;
    };
    write(&mut file).is_ok() && file.sync_all().is_ok()
}

// A message that says whether a file is written, `done` where it is.
pub fn say_written(rt: &impl Print, name: &[u8], written: bool, done: impl Display + Drop) -> bool
    ensures { result ≡ written }
{
    if written {
        say_of_file(rt, name, done);
    } else {
        say_of_file(rt, name, "can't be written");
    }
    written
}
