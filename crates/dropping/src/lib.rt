// The leaving of a list's first record.
#![tactic(auto)]

mod drop_first;
pub mod drop_tied;
