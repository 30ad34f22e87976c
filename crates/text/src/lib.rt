// Input and text, for the programs of this repository: what a file holds, whole or by its lines; the words of a line, numbers and
// hexadecimal; and saying something.
//
// No function that is seen outside asks anything of its caller.
#![tactic(auto)]

pub mod double;
pub mod hex;
pub mod input;
pub mod lines;
pub mod number;
pub mod say;
pub mod words;
