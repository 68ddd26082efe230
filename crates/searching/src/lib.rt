// Where a list is cut for a key: the search along its links, and the walk along its records.
#![tactic(auto)]

pub mod search;
pub mod walk;
