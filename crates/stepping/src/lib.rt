// A step of the merge: a run of the list whose first m is the larger goes to the result.
#![tactic(auto)]

pub mod beside;
pub mod newer_step;
pub mod older_step;
