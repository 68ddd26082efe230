// An item in one word, lists of such words, read either way, and the merge of two of them.
#![tactic(auto)]

pub mod item;
pub mod merge;
pub mod stretch;
