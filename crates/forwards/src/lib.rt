// The forwards of a list from link 1 up, held against the records that a walk along it comes to.
#![tactic(auto)]

pub mod due;
