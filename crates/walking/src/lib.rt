// The least width for each of falling heights, by one walk over a list of outer sizes.
#![tactic(auto)]

pub mod walk;
