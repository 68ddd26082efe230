// The face file of document 01: checks 1 to 13, what is counted in a taken file, its entries in turn, and the size
// bytes of a gauge.
#![tactic(auto)]

mod bytes;
pub mod entry;
pub mod reader;
mod size_bytes;

pub use reader::read;
pub use size_bytes::gauge_bytes;

// What the reader answers: the number of the first check that fails, with the counts 0; or 0, with the counts of
// gauges and of sizes.
// The number stands beside the rest and in no `Result`, since document 01 says so of every call (docs/DECISIONS.md).
#[derive(Clone, Copy)]
pub struct Face {
    pub number: u32,
    pub gauges: usize,
    pub sizes: usize,
}

// What is counted in a taken file: its gauges, and the sizes of all of them.
#[derive(Clone, Copy, PartialEq, Eq)]
pub struct Counts {
    pub gauges: usize,
    pub sizes: usize,
}
