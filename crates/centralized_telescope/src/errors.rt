// The refusals: one table for all calls. A call's answer holds a refusal as the call below gave it, so that a line is written here and in
// no caller. How a search or a verification ends is no refusal, and stands with those calls.
ghost use Rattle.std.specs.Prelude.{◌≡◌};
ghost use Rattle.centralized_telescope.specs.core.Refusals.{refusal_number};

use std::error::Error;
use std::fmt;

// Why a call does no work.
#[derive(Clone, Copy, Debug, PartialEq, Eq)]
pub enum Refusal {
    // set_size is 0 or over its limit
    SetSize,
    // another whole number of the settings is over its limit
    Limit,
    // the parts of a lent list don't fit together, or a place isn't one of it
    Malformed,
    // too many elements, or too much data in one
    TooLarge,
    // the prover's places or bin table
    WorkspaceShort,
    // fewer than set_size
    NotEnoughElements,
    // the small case's u
    ProofSize,
    // the small case's c
    Completeness,
    // a ticket's size isn't whole blocks, or a block's check fails
    DamagedTicket,
    // whole blocks with their checks, and no proof within the limits has them as its ticket
    NoTicket,
    // a lent buffer has no room for what is to be written
    BufferShort,
    // a security figure is outside its range
    Figures,
    // no proof size up to its limit is enough for the security figures
    NoSize,
    // a pool of more elements than a list may have
    PoolTooLarge,
    // the digest of a run is not the one that was prepared
    RunChanged,
    // a retry counter that isn't the bin table's
    OtherRetry,
    // a bin table that isn't the one for the list, the set size and its retry counter
    OtherTable,
    // fewer counts than a chain has lengths
    CountsShort,
    // a tree of more chains than dfs_bound
    TreeTooLarge,
}

// The number of a refusal.
impl From<Refusal> for u32 {
    ghost from_gives = { λ k number. number ≡ refusal_number k };

    fn from(k: Refusal) -> u32 {
        match k {
            Refusal::SetSize => 1,
            Refusal::Limit => 2,
            Refusal::Malformed => 4,
            Refusal::TooLarge => 5,
            Refusal::WorkspaceShort => 6,
            Refusal::NotEnoughElements => 10,
            Refusal::ProofSize => 30,
            Refusal::Completeness => 31,
            Refusal::DamagedTicket => 40,
            Refusal::NoTicket => 41,
            Refusal::BufferShort => 42,
            Refusal::Figures => 43,
            Refusal::NoSize => 44,
            Refusal::PoolTooLarge => 45,
            Refusal::RunChanged => 46,
            Refusal::OtherRetry => 47,
            Refusal::OtherTable => 48,
            Refusal::CountsShort => 49,
            Refusal::TreeTooLarge => 50,
        }
    }
}

// The same by name: READING and PROVED name this call, so that it stays beside the impl.
pub fn refusal_number(k: Refusal) -> u32
    ensures { result ≡ refusal_number k }
{
    u32::from(k)
}

// What a refusal means, whichever call gives it.
impl fmt::Display for Refusal {
    fn fmt<W: fmt::Write>(&self, f: &mut fmt::Formatter<W>) -> fmt::Result {
        f.write_str(match self {
            Refusal::SetSize => "the set size is not 1 to 32768",
            Refusal::Limit => {
                "a setting is over its limit: proof size 1024, tries 65535, width 4294967295, bound 281474976710656"
            }
            Refusal::Malformed => "the list of elements is malformed",
            Refusal::TooLarge => "over 65536 elements, or over 4096 data bytes in one",
            Refusal::WorkspaceShort => "the room to search in is too short",
            Refusal::NotEnoughElements => "fewer elements than the set size",
            Refusal::ProofSize => "the proof size is not 1 to 1024",
            Refusal::Completeness => "the completeness is no number, below 0 or above 65535",
            Refusal::DamagedTicket =>
                "the ticket's size is not whole blocks, or a block's check fails",
            Refusal::NoTicket => "the blocks are no proof's ticket",
            Refusal::BufferShort => "more than there is room for",
            Refusal::Figures => {
                "a security figure is outside its range: soundness 0 to 256, completeness 1 to 1024, \
                 set size 2 to 32768, lower bound 1 to set size - 1"
            }
            Refusal::NoSize => "no proof size from 1 to 1024 is enough for these security figures",
            Refusal::PoolTooLarge => "the pool has more than 65536 elements",
            Refusal::RunChanged => "the run is not the one that was prepared",
            Refusal::OtherRetry => "the retry counter is not the bin table's",
            Refusal::OtherTable =>
                "the bin table is not the one for this list, set size and retry counter",
            Refusal::CountsShort => "fewer counts than the proof size and one more",
            Refusal::TreeTooLarge => "the tree has more chains than the bound",
        })
    }
}

impl Error for Refusal {}
