// An argument that is to be read, and what is said of one that is wrong.
ghost use Rattle.std.specs.Prelude.{◌≡◌, ◌≤◌, ◌<◌, ℕ, List, length, Some, IfSome};
ghost use Rattle.std.specs.Fn.{FnOnceReturnsAt};

use crate::words::bytes_at;
use std::fmt::Display;
use std::rt::Env;

// Where it stands among the words that the program was started with, and what messages call it.
#[derive(Clone, Copy)]
pub struct Argument<'a> {
    pub place: usize,
    pub name: &'a str,
}

impl Argument<'_> {
    // What was read of it. Where nothing was, a message says what is wanted.
    pub fn or_wanted<T>(
        self,
        rt: &impl Print,
        read: Option<T>,
        wanted: impl Display + Drop,
    ) -> Option<T>
        ensures { result ≡ read }
    {
        if read.is_none() {
            let place = self.place;
            let name = self.name;
            let _ = println!(rt; "argument {place}, {name}: expected {wanted}");
        }
        read
    }

    // What `of` makes of its bytes, which `room` then holds. Where they don't fit, or it makes nothing of them, a message says what is
    // wanted.
    pub(crate) fn read<T, F: FnOnce(&[u8]) -> Option<T> + Drop>(
        self,
        rt: &(impl Env + Print),
        room: &mut [u8],
        of: F,
        wanted: impl Display + Drop,
    ) -> Option<T>
        requires { F.IsAlwaysCallable of }
        ensures { IfSome result (λ x. (word : List ℕ) × FnOnceReturnsAt F.FnOnce of word (Some x)) }
    {
        match bytes_at(rt, self.place, room) {
            Some(bytes) => self.or_wanted(rt, of(bytes), wanted),
            None => self.or_wanted(rt, None, wanted),
        }
    }

    // A file's name, which `room` then holds, or a message where it is empty or doesn't fit.
    pub fn path<'r>(self, rt: &(impl Env + Print), room: &'r mut [u8]) -> Option<&'r [u8]>
        ensures { IfSome result (λ path. (0 < length path.now) × (length path.now ≤ length room.old)) }
    {
        let path = bytes_at(rt, self.place, room).filter(|path| !path.is_empty());
        self.or_wanted(rt, path, "the name of a file, of 1 to 4096 bytes")
    }
}
