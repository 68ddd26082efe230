// The items of a lazy list, written into a buffer.
#![tactic(auto)]

pub mod write;
