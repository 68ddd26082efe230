// The buffers that a call is lent: how long they are made, and what they hold before it.
use crate::print::{put_byte, put_next};

// The length of an arena or a scratch: 16 words more than a call needs.
pub const WORDS: usize = 16_400;

// The length of an output: a face has at most 449 items, two words each, and a call is lent some words more.
pub const OUTPUT: usize = 904;

// The length of a buffer of levels.
pub const LEVELS: usize = 1_024;

// The length of a text: the call needs 13,645 bytes.
pub const TEXT: usize = 13_700;

// What each word of a buffer holds before a call, and each byte.
pub const UNTOUCHED: u32 = 2_863_311_530;

pub const BLANK: u8 = 170;

// A word of a buffer, or a byte of a text or a file.
pub trait Unit: Copy + PartialEq + Into<u32> {
    // What each of a buffer holds before a call.
    const BEFORE: Self;

    // Prints one of a row: a word in decimal after a blank, a byte as two hexadecimal digits.
    fn put(self, out: &impl Print);
}

impl Unit for u32 {
    const BEFORE: u32 = UNTOUCHED;

    fn put(self, out: &impl Print) {
        put_next(out, self);
    }
}

impl Unit for u8 {
    const BEFORE: u8 = BLANK;

    fn put(self, out: &impl Print) {
        put_byte(out, self);
    }
}
