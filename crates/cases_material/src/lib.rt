// The sheet call, with what it gives as text on standard output.
#![tactic(auto)]

mod sheet;

pub use sheet::call_sheet;
