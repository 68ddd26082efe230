// The sizes of a gauge in the bytes of a face file: 16-bit fields, and checks 8 and 9.
#![tactic(auto)]

pub mod field;
pub mod questions;

pub use field::{is_within, size_in};

// A height and a width.
#[derive(Clone, Copy, PartialEq, Eq)]
pub struct Size {
    pub height: u32,
    pub width: u32,
}
