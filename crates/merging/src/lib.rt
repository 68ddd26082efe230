// The maxplus merge of two lazy lists in an arena: step after step, while both lists have a record.
#![tactic(auto)]

pub mod merge;
mod runs;
