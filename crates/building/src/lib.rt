// Lists made anew: the head of an empty list, and a record put before a list.
#![tactic(auto)]

pub mod empty;
pub mod prepend;
