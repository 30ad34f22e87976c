// Rounds: their hashes and ids, an element's bin, and the yes or no on a last hash. Rounds, bins and the last hash each have a label.
ghost use Rattle.std.specs.Prelude.{◌≡◌, ◌+◌, ◌^◌, ◌≤◌, ◌++◌, length, take};
ghost use Rattle.sampling.specs.core.Fips180.{sha256};
ghost use Rattle.sampling.specs.core.Sample.{uniform_by};
ghost use Rattle.centralized_telescope.specs.core.Elements.{tail, max_data_bytes};
ghost use Rattle.centralized_telescope.specs.inner.Held.{element_read, option_of};
ghost use Rattle.centralized_telescope.specs.inner.Following.{round_with};
ghost use Rattle.centralized_telescope.specs.core.Rounds.{start_hash, next_hash, drawn, round_id, bin_of, says_yes};

use crate::lists::Element;
use sampling::{EmptyRange, U128, eight_bytes, sample_bernoulli, sample_uniform};

// R, the try. A type of its own, so that neither counter can be handed over for the other.
#[derive(Clone, Copy, PartialEq, Eq, Debug)]
pub struct RetryCounter(pub u64);

// S, the tree that is searched within a try.
#[derive(Clone, Copy, PartialEq, Eq, Debug)]
pub struct SearchCounter(pub u64);

// A round: its hash, and the id that is drawn from it.
#[derive(Clone, Copy)]
pub struct Round {
    pub hash: [u8; 32],
    pub id: u64,
}

// SHA-256 of a label and three strings, all far within the hash's limit.
fn digest(label: &[u8], a: &[u8], b: &[u8], c: &[u8]) -> [u8; 32]
    requires { length label.now + (length a.now + (length b.now + length c.now)) ≤ 2 ^ 29 }
    ensures { result ≡ sha256 (label.now ++ (a.now ++ (b.now ++ c.now))) }
{
    sampling::sha256::sha256(label, a, b, c).unwrap()
}

// The digest of a label, the bytes `first` and the tail of an element.
#[tactic(auto, unfolding(crate::specs::core::Elements::tail))]
fn tail_digest(label: &[u8], first: &[u8], element: Element) -> [u8; 32]
    requires { length label.now + length first.now ≤ 64 }
    ensures { result ≡ sha256 (label.now ++ (first.now ++ tail (element_read element.entry))) }
{
    match element.index {
        Some(index) => digest(label, first, element.data, &eight_bytes(index)),
        None => digest(label, first, element.data, b""),
    }
}

// The hash of a start round.
#[tactic(auto, unfolding(crate::specs::core::Rounds::start_hash, crate::specs::core::Rounds::round_label))]
pub fn start_hash(retry: RetryCounter, search: SearchCounter) -> [u8; 32]
    ensures { result ≡ start_hash retry.0 search.0 }
{
    let retry_bytes = eight_bytes(retry.0);
    let search_bytes = eight_bytes(search.0);
    digest(b"Telescope-round_hash", &retry_bytes, &search_bytes, b"")
}

// The hash of the round after the one with the hash h, by an element.
#[tactic(auto, unfolding(crate::specs::core::Rounds::next_hash, crate::specs::core::Rounds::round_label))]
pub fn next_hash(h: [u8; 32], element: Element) -> [u8; 32]
    ensures { result ≡ next_hash h (element_read element.entry) }
{
    tail_digest(b"Telescope-round_hash", &h, element)
}

// The first 16 bytes of a digest: what is sampled. Like `copy_over` of `sampling` a loop that is proved here, since the C of dist/ copies
// by it.
fn first_half(h: [u8; 32]) -> [u8; 16]
    ensures { result ≡ take 16 h }
{
    let mut half = [0u8; 16];
    for i in 0..16 {
        half[i] = h[i];
    }
    half
}

// What is drawn, if anything. By a match: with `unwrap_or` the C of dist/ has that function of the library, and two that let values go.
fn id_of(d: Result<Option<u64>, EmptyRange>) -> Option<u64>
    ensures { option_of result ≡ drawn (uniform_by d) }
{
    match d {
        Ok(id) => id,
        Err(_) => None,
    }
}

// The id of the round with the hash h, n being set_size.
#[tactic(auto, unfolding(crate::specs::core::Rounds::drawn_below))]
pub fn round_id(h: [u8; 32], n: u64) -> Option<u64>
    ensures { option_of result ≡ round_id n h }
{
    id_of(sample_uniform(first_half(h), n))
}

// The round with a hash, if there is one.
pub fn round_of(hash: [u8; 32], n: u64) -> Option<Round>
    ensures { option_of result ≡ round_with hash (round_id n hash) }
{
    Some(Round {
        hash,
        id: round_id(hash, n)?,
    })
}

// The bin of an element, in the try `retry`.
#[tactic(auto, unfolding(crate::specs::core::Rounds::bin_of, crate::specs::core::Rounds::bin_label))]
pub fn bin_of(retry: RetryCounter, element: Element, n: u64) -> Option<u64>
    ensures { option_of result ≡ bin_of n retry.0 (element_read element.entry) }
{
    let retry_bytes = eight_bytes(retry.0);
    round_id(tail_digest(b"Telescope-bin_hash", &retry_bytes, element), n)
}

// Whether a chain of full length with the last hash h passes.
#[tactic(auto, unfolding(crate::specs::core::Rounds::says_yes, crate::specs::core::Rounds::proof_label))]
pub fn proof_hash(h: [u8; 32], x: U128) -> bool
    ensures { result ≡ says_yes x h }
{
    sample_bernoulli(first_half(digest(b"Telescope-proof_hash", &h, b"", b"")), x)
}
