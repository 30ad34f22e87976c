// Arguments as numbers.
ghost use Rattle.std.specs.Prelude.{◌≡◌, true, pos, ◌≤◌, false, IfSome};
ghost use Rattle.std.specs.Range.{range_inclusive_start, range_inclusive_end};
ghost use Rattle.std.specs.Float.{◌≤ᶠ◌};
ghost use Rattle.std.specs.Float.Ieee.{fin};
ghost use Rattle.arguments.specs.Numbers.{IsInDecimal, IsInDigits};

use crate::argument::Argument;
use sampling::U128;
use std::ops::RangeInclusive;
use std::rt::Env;
use text::{double, hex, number};

// What 32 digits write.
fn wide_of(word: &[u8]) -> Option<U128>
    ensures { IfSome result IsInDigits }
{
    let (high, low) = word.split_at_checked(16)?;
    Some(U128 {
        hi: hex::sixteen_digits(high)?,
        lo: hex::sixteen_digits(low)?,
    })
}

// A whole number as a double. From 65,536 on all are refused alike, so the double is 65,536.
pub fn whole_double(n: u64) -> f64 {
    n.min(65536) as f64
}

fn completeness_of(word: &[u8]) -> Option<f64> {
    match word.strip_prefix(b"0x") {
        Some(digits) => hex::sixteen_digits(digits).map(double::of_bits),
        None => number::decimal(word).map(whole_double),
    }
}

// A NaN is neither below a number nor above one, so it isn't within the limits.
fn is_small(c: f64) -> bool
    ensures { result ≡ true → (fin false 0 (pos 0) ≤ᶠ c) × (c ≤ᶠ fin false 65535 (pos 0)) }
{
    0.0 <= c && c <= 65535.0
}

// The same of one that the small case takes.
fn small_completeness_of(word: &[u8]) -> Option<f64>
    ensures { IfSome result (λ c. (fin false 0 (pos 0) ≤ᶠ c) × (c ≤ᶠ fin false 65535 (pos 0))) }
{
    completeness_of(word).filter(|c| is_small(*c))
}

impl Argument<'_> {
    // The number that it writes in decimal, or a message.
    pub fn whole(self, rt: &(impl Env + Print)) -> Option<u64>
        ensures { IfSome result IsInDecimal }
    {
        self.read(
            rt,
            &mut [0; 32],
            number::decimal,
            "a whole number in decimal, up to 18446744073709551615",
        )
    }

    // The same of a number within limits, which the message names.
    pub fn whole_within(self, rt: &(impl Env + Print), limits: RangeInclusive<u64>) -> Option<u64>
        ensures { IfSome result (λ n. (range_inclusive_start limits ≤ n) × (n ≤ range_inclusive_end limits)) }
    {
        let least = *limits.start();
        let most = *limits.end();
        self.read(
            rt,
            &mut [0; 32],
            |word| number::decimal(word).filter(|n| limits.contains(n)),
            format_args!("a whole number from {least} to {most}"),
        )
    }

    // The X whose digits it writes, or a message.
    pub fn threshold(self, rt: &(impl Env + Print)) -> Option<U128>
        ensures { IfSome result IsInDigits }
    {
        self.read(
            rt,
            &mut [0; 32],
            wide_of,
            "32 hexadecimal digits, small letters",
        )
    }

    // The digest whose digits it writes, or a message.
    pub fn digest(self, rt: &(impl Env + Print)) -> Option<[u8; 32]> {
        self.read(
            rt,
            &mut [0; 64],
            hex::bytes::<32>,
            "64 hexadecimal digits, small letters",
        )
    }

    // The completeness that it writes, or a message.
    pub fn completeness(self, rt: &(impl Env + Print)) -> Option<f64> {
        self.read(
            rt,
            &mut [0; 32],
            completeness_of,
            "a whole number in decimal, or 0x and 16 hexadecimal digits",
        )
    }

    // The same of one that the small case takes; the message names the limits.
    pub fn completeness_within(self, rt: &(impl Env + Print)) -> Option<f64>
        ensures { IfSome result (λ c. (fin false 0 (pos 0) ≤ᶠ c) × (c ≤ᶠ fin false 65535 (pos 0))) }
    {
        self.read(
            rt,
            &mut [0; 32],
            small_completeness_of,
            "a whole number from 0 to 65535, or 0x and 16 hexadecimal digits of a double from 0 to 65535",
        )
    }
}
