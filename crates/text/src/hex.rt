// Bytes and numbers written in hexadecimal, two digits to the byte.
ghost use Rattle.std.specs.Prelude.{◌≡◌, ◌≤◌, ◌<◌, ◌/◌, ◌%◌, length, MatchOption, IfSome, OnSome, if◌then◌else◌};
ghost use Rattle.io.specs.Counts.{IsPrefixLen};
ghost use Rattle.text.specs.Hexadecimal.{digit_value, is_sixteen, sixteen_value};

use std::cmp::min;
use std::io::Write;

// The value of a digit. Capital letters are none: what the programs here read has small ones only.
#[tactic(auto, unfolding(crate::specs::Hexadecimal::digit_value))]
fn digit(c: u8) -> Option<u8>
    ensures { MatchOption result (15 < digit_value c) (λ d. (d ≡ digit_value c) × (d ≤ 15)) }
{
    match c {
        b'0'..=b'9' => Some(c - b'0'),
        b'a'..=b'f' => Some(c - b'a' + 10),
        _ => None,
    }
}

// The byte that two digits write.
fn byte_of(high: u8, low: u8) -> Option<u8> {
    Some(16 * digit(high)? + digit(low)?)
}

// How many bytes `text` writes, and these at the start of `out`. None: an odd number of digits, another byte among them, or more than fit.
pub fn unhex(text: &[u8], out: &mut [u8]) -> Option<usize>
    ensures { IfSome result (λ n. IsPrefixLen n out.new) }
{
    let (pairs, odd) = text.as_chunks::<2>();
    if !odd.is_empty() || out.len() < pairs.len() {
        return None;
    }
    for (byte, pair) in out.iter_mut().zip(pairs) {
        *byte = byte_of(pair[0], pair[1])?;
    }
    Some(pairs.len())
}

// The N bytes that `text` writes. None: another number of digits than 2 N, or another byte among them.
pub fn bytes<const N: usize>(text: &[u8]) -> Option<[u8; N]>
    ensures { OnSome result (length text.now / 2 ≡ N) }
{
    if text.len() / 2 != N {
        return None;
    }
    let mut bytes = [0; N];
    unhex(text, &mut bytes)?;
    Some(bytes)
}

// The number that 16 digits write. None: another count of digits, or another byte among them. The library's parsing takes capital
// letters and a sign too.
pub fn sixteen_digits(text: &[u8]) -> Option<u64>
    ensures { result ≡ (if is_sixteen text.now then Some (sixteen_value text.now) else None) }
{
    if text.len() != 16 {
        return None;
    }
    let mut value = 0;
    for byte in text {
        value = 16 * value + u64::from(digit(*byte)?);
    }
    Some(value)
}

fn letter(value: u8) -> u8
    requires { value < 16 }
{
    if value < 10 {
        b'0' + value
    } else {
        b'a' - 10 + value
    }
}

// The digits of the first bytes, as many as there is room for: how many digits.
fn digits_of(bytes: &[u8], out: &mut [u8]) -> usize
    ensures { IsPrefixLen result out.new }
{
    let n = min(bytes.len(), out.len() / 2);
    let (pairs, _) = out.as_chunks_mut::<2>();
    for (pair, byte) in pairs.iter_mut().zip(bytes) {
        *pair = [letter(*byte / 16), letter(*byte % 16)];
    }
    2 * n
}

// Writes the digits of up to 2,048 bytes at once.
fn write_some(out: &mut impl Write, bytes: &[u8]) -> std::io::Result<()> {
    let mut digits = io::buffer();
    let n = digits_of(bytes, &mut digits);
    out.write_all(&digits[..n])
}

// Writes the digits of all bytes. Not by `{:02x}` of each: a file has no buffer, and each byte would be a call of the system.
pub fn write(out: &mut impl Write, bytes: &[u8]) -> std::io::Result<()> {
    for part in bytes.chunks(2048) {
        write_some(out, part)?;
    }
    Ok(())
}
