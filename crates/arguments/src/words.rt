// Arguments as they stand.
ghost use Rattle.std.specs.Prelude.{◌≤◌, length, IfSome};

use std::env::FillError;
use std::rt::Env;
use text::say::say;

// The bytes of argument i, which `room` then holds. None where there is none or it doesn't fit.
pub fn bytes_at<'a>(rt: &impl Env, i: usize, room: &'a mut [u8]) -> Option<&'a [u8]>
    ensures { IfSome result (λ bytes. length bytes.now ≤ length room.old) }
{
    let n = rt.arg(i, room).ok()?;
    Some(&room[..n])
}

// How many words the program was started with, its own name among them.
pub fn count(rt: &impl Env) -> usize {
    (0..usize::MAX)
        .find(|i| matches!(rt.arg(*i, &mut []), Err(FillError::NotPresent)))
        .unwrap_or(usize::MAX)
}

// Whether argument i is this word, of at most 32 bytes.
pub fn is_word(rt: &impl Env, i: usize, word: &[u8]) -> bool {
    let mut room = [0u8; 32];
    bytes_at(rt, i, &mut room) == Some(word)
}

// Says argument i, where it has at most 32 bytes, as each has that is read as a number.
pub fn say_argument(rt: &(impl Env + Print), i: usize) {
    let mut room = [0u8; 32];
    if let Some(bytes) = bytes_at(rt, i, &mut room) {
        say(rt, bytes);
    }
}
