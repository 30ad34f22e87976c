// The numbers that are worked out of sums, by whole-number arithmetic.
ghost use Rattle.std.specs.Prelude.{◌≡◌, ◌+◌, ◌*◌, ◌/◌, ◌^◌, ◌<◌, ◌≤◌, min, max};
ghost use Rattle.std.specs.Int.{div_ceil};

// How many search counters there may be from the first on, under a step bound: one or more, fewer than 2^32, none past the greatest u64, and
// so few that their chains, the bound's number in each, are below 2^64.
pub fn most_trees(first: u64, bound: u64) -> u64
    ensures some { 1 ≤ result }
    ensures none_past { first + result ≤ 2 ^ 64 }
    ensures few { result < 2 ^ 32 }
    ensures chains_fit { result * bound < 2 ^ 64 }
{
    let behind = (u64::MAX - first).saturating_add(1);
    let within = u64::MAX / bound.max(1);
    behind.min(within).min(0xffff_ffff)
}

// The mean of a total over so many trees, one at least, rounded to hundredths, halves up: its whole part and the hundredths.
pub fn mean(total: u64, trees: u64) -> (u128, u128)
    ensures rounded { 100 * result.0 + result.1 ≡ (100 * total + max trees 1 / 2) / max trees 1 }
    ensures two_digits { result.1 < 100 }
{
    let trees = u128::from(trees.max(1));
    let hundredths = (100 * u128::from(total) + trees / 2) / trees;
    (hundredths / 100, hundredths % 100)
}

// How many chains so many trees have, if they have as many on average as trees with this total, one at least; cut to a whole number.
pub fn chains_of(width: u64, total: u64, trees: u64) -> u128
    ensures { result ≡ width * total / max trees 1 }
{
    u128::from(width) * u128::from(total) / u128::from(trees.max(1))
}

// The most signs of a bar.
pub const SIGNS: usize = 40;

// How long the bar of a total is against the greatest total, rounded up: where there is a chain there is a sign.
pub fn bar_len(total: u64, greatest: u64) -> usize
    ensures { result ≡ min (div_ceil (40 * total) (max greatest 1)) 40 }
{
    let len = (40 * u128::from(total)).div_ceil(u128::from(greatest.max(1)));
    len.min(SIGNS as u128) as usize
}

// Of so many lengths the table has one, where the greatest length is so much: up to 40 of each, and above of so many that it has 41 rows at
// most, the greatest length's own among them.
pub fn step_of(longest: usize) -> usize
    ensures each { longest ≤ 40 → result ≡ 1 }
    ensures some { 0 < result }
    ensures rows { longest ≤ 1024 → longest ≤ 40 * result }
{
    match longest {
        0..=40 => 1,
        41..=80 => 2,
        81..=200 => 5,
        201..=400 => 10,
        401..=800 => 20,
        _ => 50,
    }
}
