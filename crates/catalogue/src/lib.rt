// A catalogue of heights: the least width of a face for each.
#![tactic(auto)]

mod cataloguing;
mod heights;

pub use cataloguing::widths;

// What the catalogue call answers: the number, and how many looks at the list it took, which are 0 where the number is not.
// The number stands beside the rest and in no `Result`, since document 01 says so of every call (docs/DECISIONS.md).
#[derive(Clone, Copy)]
pub struct Catalogued {
    pub number: u32,
    pub looks: u32,
}
