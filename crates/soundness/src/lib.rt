// What green means, if SHA-256 is as a function drawn at random: above the telescope, definitions and theorems alone.
#![tactic(auto)]

mod theorems;

pub use theorems::{green_example, green_share, made_by_calls, seldom_green, tables_are_functions};
