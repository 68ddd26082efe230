// Records in a lent arena: their words, and the sums of a walk along a list of them.
#![tactic(auto)]

pub mod sums;
pub mod words;

// "An arena record grows to 20 words." "Record r starts at word 20r."
pub const STRIDE: usize = 20;
