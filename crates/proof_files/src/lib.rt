// What the programs for files of elements and of proofs share: elements as text, the files' forms, and what is said of them.
//
// No function that is seen outside asks anything of its caller.
#![tactic(auto)]

mod bytes_file;
pub mod elements;
mod elements_file;
mod list;
mod opening;
mod proof_file;
mod report;

pub use bytes_file::{is_bytes_written, read_bytes};
pub use elements_file::{Unread, read_elements};
pub use list::{ElementList, FullRoom, ListRoom, first, first_elements};
pub use opening::{is_taken, is_there, open_or_say, open_read, say_written};
pub use proof_file::{Counters, is_proof_written, read_proof};
pub use report::{kept, say_elements, say_of_file};
