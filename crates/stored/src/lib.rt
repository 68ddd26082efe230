// The shape lists of every part of a face, in a lent scratch: one word an item.
#![tactic(auto)]

pub mod fill;
pub mod table;
