// Whole numbers of thousands of bits: digits of 32 bits, the lowest first, in a lent slice.
ghost use Rattle.std.specs.Prelude.{◌≡◌, ◌*◌, ◌^◌, ◌<◌, length, nat_lt};
ghost use Rattle.centralized_telescope.specs.inner.Digits.{number_in};

// Multiplies by k, where there are digits enough for the product.
pub fn times(digits: &mut [u32], k: u32)
    requires { number_in digits.old * k < (2 ^ 32) ^ length digits.old }
    ensures { (length digits.new ≡ length digits.old)
        × (number_in digits.new ≡ number_in digits.old * k) }
{
    let mut carry = 0;
    for digit in digits.iter_mut() {
        let sum = u64::from(*digit) * u64::from(k) + carry;
        *digit = (sum % 0x1_0000_0000) as u32;
        carry = sum / 0x1_0000_0000;
    }
}

// Doubles so many times, where there are digits enough for what comes out.
pub fn double(digits: &mut [u32], times_doubled: u64)
    requires { number_in digits.old * 2 ^ times_doubled < (2 ^ 32) ^ length digits.old }
    ensures { (length digits.new ≡ length digits.old)
        × (number_in digits.new ≡ number_in digits.old * 2 ^ times_doubled) }
{
    for _ in 0..times_doubled {
        times(digits, 2);
    }
}

// Whether a is below b, both of as many digits. The highest digit in which they differ decides. The lowest comes first, so the library's
// order of lists would have to go through both from the back, and be tied to the numbers: no plainer.
pub fn is_below(a: &[u32], b: &[u32]) -> bool
    requires { length a.now ≡ length b.now }
    ensures { result ≡ nat_lt (number_in a.now) (number_in b.now) }
{
    let mut below = false;
    for (x, y) in a.iter().zip(b) {
        if x != y {
            below = x < y;
        }
    }
    below
}
