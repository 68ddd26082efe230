// The list of a gauge: its sizes without inferior ones, by falling height, as a word that names them in their order.
#![tactic(auto)]

mod narrowest;
pub mod order;
mod standing;
