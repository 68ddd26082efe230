// The list of outer sizes of a face: the list call.
#![tactic(auto)]

mod listing;

pub use listing::{list, write_list};

// What the list call answers: the number, and the item count, which is 0 where the number is not.
// The number stands beside the rest and in no `Result`, since document 01 says so of every call (docs/DECISIONS.md).
#[derive(Clone, Copy)]
pub struct Listed {
    pub number: u32,
    pub count: u32,
}
