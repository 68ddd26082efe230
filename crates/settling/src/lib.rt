// Values: p and adjusts of the front of a list, for it to follow another list with every true p raised alike.
#![tactic(auto)]

pub mod lift;
mod raise_chain;
mod raise_lowest;
pub mod settle;
