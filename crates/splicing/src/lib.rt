// Links: the front of a list is moved behind an open list, and an open list is closed.
#![tactic(auto)]

pub mod ends;
pub mod relink;
