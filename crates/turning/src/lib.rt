// Lists turned, for a part that is joined the other way than its own list runs.
#![tactic(auto)]

pub mod turn;
