// Moving a run: the records in front of a list go behind an open list, with every true p raised alike. Here are the runs that
// need no search: those that one walk goes over, and those of one record.
#![tactic(auto)]

pub mod move_one;
pub mod walk_run;
