// A face as 32-bit words: checks 4 to 8 and 10 to 13, what is counted in taken ones, and their entries in turn.
#![tactic(auto)]

pub mod entry;
mod reader;
mod size;
mod words;

pub use reader::counts;

// Where the first entry begins, after the number of entries.
const FIRST_ENTRY: usize = 1;
