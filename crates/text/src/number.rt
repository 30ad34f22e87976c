// Numbers written in decimal.
ghost use Rattle.std.specs.Prelude.{◌≡◌, ◌&&◌, ◌^◌, ltb, if◌then◌else◌};
ghost use Rattle.text.specs.Decimal.{is_digit, with_digit, is_decimal, decimal_value};

// 10 times the value, and a digit more. None: no decimal digit, or over 2^64 - 1.
fn with_digit(value: u64, c: u8) -> Option<u64>
    ensures { result ≡ (if is_digit c && ltb (with_digit value c) (2 ^ 64) then Some (with_digit value c) else None) }
{
    match c {
        b'0'..=b'9' => value.checked_mul(10)?.checked_add(u64::from(c - b'0')),
        _ => None,
    }
}

// The number that `text` writes in decimal. None: no digits, another byte among them, or over 2^64 - 1. std's `parse` takes a sign as well.
pub fn decimal(text: &[u8]) -> Option<u64>
    ensures { result ≡ (if is_decimal text.now then Some (decimal_value text.now) else None) }
{
    if text.is_empty() {
        return None;
    }
    let mut value = 0;
    for byte in text {
        value = with_digit(value, *byte)?;
    }
    Some(value)
}
