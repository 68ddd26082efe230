// One gauge written on a page: its bytes in a file of version 2, with the file's header, and its words.
#![tactic(auto)]

mod file_bytes;
mod gauge_words;

pub use file_bytes::{write_gauge, write_header};
pub use gauge_words::put_gauge;
