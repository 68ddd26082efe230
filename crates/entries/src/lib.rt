// The entries of a face file: checks 5 to 11 on each entry, and the kinds of parts. They are read alike from the bytes of
// a file and from words.
#![tactic(auto)]

pub mod entry;
mod gauge;
mod gauge_sizes;
mod kinds;
mod units;

pub use kinds::Kind;
pub use units::Units;

// A place between two entries, and what was counted before it: parts on the stack, gauges and sizes.
#[derive(Clone, Copy, PartialEq, Eq)]
pub struct Cursor {
    pub at: usize,
    pub parts: usize,
    pub gauges: usize,
    pub sizes: usize,
}
