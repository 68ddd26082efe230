// Loading a gauge: its sizes become a list of records, each with its level.
#![tactic(auto)]

pub mod load;
