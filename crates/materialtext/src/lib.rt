// The text that the program `material` prints, as bytes in a lent buffer.
#![tactic(auto)]

mod face;

pub use face::material_text;

// The bytes that the text takes at most: 64 + 32 * 64.
pub const TEXT: usize = 2_112;
