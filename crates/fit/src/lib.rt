// The smallest layout of a face in an opening.
#![tactic(auto)]

mod fitting;

pub use fitting::{Lengths, asked, fit};
pub use placing::Fitted;
