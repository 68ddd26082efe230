// A run of records, moved behind an open list: by one walk, at once where it is one record, or cut, settled and relinked.
#![tactic(auto)]

mod cut_run;
mod linked_run;
pub mod move_run;
