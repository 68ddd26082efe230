// The layout of a stored part: what each side of a join takes, down to the words of each gauge.
#![tactic(auto)]

pub mod lay;
pub mod take;
