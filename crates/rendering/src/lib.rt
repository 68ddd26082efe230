// The lines of the text of a face, from its words.
#![tactic(auto)]

mod lines;
pub mod render;
