// The parts of a face on a stack, as lazy lists in the arena: gauges are loaded, and joins turn and merge.
#![tactic(auto)]

pub mod build;
mod heads;
mod join;
