// What the calls on a face ask of what they are given and lent with it: one function a question, which a call chains with `?`.
#![tactic(auto)]

mod level_checks;
mod words;

pub use level_checks::{level_count, levels};
pub use words::{buffers, opening, output, rib};
