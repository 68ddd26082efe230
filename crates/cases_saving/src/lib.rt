// The calls between words and files, with what they give as text on standard output.
#![tactic(auto)]

mod again;
mod apart;
mod given;
mod saved;
mod worded;

pub use again::call_again;
pub use saved::call_saved;
pub use worded::call_worded;
