// What a program's arguments say: words, names of files, numbers and settings. What is wrong with one is said in words, what the library
// refuses by number.
//
// No function that is seen outside asks anything of its caller.
#![tactic(auto)]

mod argument;
mod numbers;
mod settings;
mod words;

pub use argument::Argument;
pub use settings::{Figures, PastLimits, Reading, say_settings};
pub use words::{count, is_word, say_argument};
