// The text that the program `faces` prints, as bytes in a lent buffer.
#![tactic(auto)]

mod face;

pub use face::{OPENING, RIB, WIDEST, faces_text};

// The bytes that the text of a face takes at most: 17 + 22 * 449 + 38 + 58 * 64.
pub const TEXT: usize = 13_645;
