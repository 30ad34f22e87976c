// The bytes of an open file, or of standard input, in a lent buffer.
ghost use Rattle.std.specs.Prelude.{◌≤◌, min, ◌≡◌, length, take, IfOk, MatchResult};

use std::io::Read;

// Why a part of an input, a whole one or a line, isn't there.
#[derive(Clone, Copy, Debug, PartialEq, Eq)]
pub enum FetchError {
    // there is no room for so much
    TooLong,
    Unreadable,
}

// A read that failed, and how far the buffer was filled before it.
#[derive(Clone, Copy, Debug, PartialEq, Eq)]
pub struct CutShort {
    pub len: usize,
}

impl From<CutShort> for FetchError {
    fn from(_cut: CutShort) -> FetchError {
        FetchError::Unreadable
    }
}

// Reads into the buffer, behind its first `from` bytes, until it is full, the input ends or a read fails, and answers how far it is filled
// then. Where no read failed, a buffer that isn't full has all that was left of the input.
pub fn fill(file: &mut impl Read, buf: &mut [u8], from: usize) -> Result<usize, CutShort>
    ensures buf_bound { MatchResult result (λ len. (min from (length buf.old) ≤ len) × (len ≤ length buf.old))
        (λ cut. (min from (length buf.old) ≤ cut.len) × (cut.len ≤ length buf.old)) }
    ensures buf_unchanged { take from buf.new ≡ take from buf.old }
{
    let mut len = from.min(buf.len());
    // The step is what a read gives, so no range has it; std's `read_exact` doesn't say how far it came.
    while len < buf.len() {
        let Ok(more) = file.read(&mut buf[len..]) else {
            return Err(CutShort { len });
        };
        if more == 0 {
            return Ok(len);
        }
        len += more;
    }
    Ok(len)
}

// Whether the input is read to its end, and no byte follows.
fn is_at_end(file: &mut impl Read) -> bool {
    let mut one = [0u8; 1];
    matches!(file.read(&mut one), Ok(0))
}

// The input up to its end, as the first bytes of what is lent: how many they are.
pub fn read_whole(file: &mut impl Read, out: &mut [u8]) -> Result<usize, FetchError>
    ensures { IfOk result (λ len. len ≤ length out.new) }
{
    let len = fill(file, out, 0)?;
    if len == out.len() && !is_at_end(file) {
        return Err(FetchError::TooLong);
    }
    Ok(len)
}
