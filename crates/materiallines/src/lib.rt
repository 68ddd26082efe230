// The lines of the material sheet, from the words of a layout.
#![tactic(auto)]

mod areas;
mod lines;
mod sheet;

pub use sheet::write_sheet;
