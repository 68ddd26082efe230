// The item of a stored list that is picked for an opening.
#![tactic(auto)]

pub mod pick;
