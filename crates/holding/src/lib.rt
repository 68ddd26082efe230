// Whether an arena of any contents holds a lazy list, and the items of that list.
#![tactic(auto)]

pub mod items;
