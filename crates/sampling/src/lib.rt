// What the telescope draws from: SHA-256, and the sampler over the first 16 bytes of a digest. What is named here is all
// that a crate above sees. The hash is called as `sha256::sha256`: a function and a module of one name can't both stand here.
#![tactic(auto)]

mod big_endian;
mod copying;
mod exports;
mod sample;
pub mod sha256;
mod theorems;

pub use big_endian::{eight_bytes, number_of, write_number};
pub use exports::{alba_sample_bernoulli, alba_sample_uniform, alba_threshold};
pub use sample::{
    EmptyRange, NotProbability, U128, sample_bernoulli, sample_uniform, threshold_of,
};
pub use theorems::hasher_hashes;
