// A face saved and handed over again: words to a file of version 2, and a file to words.
#![tactic(auto)]

mod read;
mod write;

pub use read::read_words;
pub use write::write_file;

// What the writing call answers: the number, and the length of the file, which is 0 where the number is not.
// The number stands beside the rest and in no `Result`, since document 01 says so of every call (docs/DECISIONS.md).
#[derive(Clone, Copy)]
pub struct Saved {
    pub number: u32,
    pub length: u32,
}

// What the reading call answers: the number, and how many words it wrote, which is 0 where the number is not.
// The number stands beside the rest and in no `Result`, since document 01 says so of every call (docs/DECISIONS.md).
#[derive(Clone, Copy)]
pub struct Worded {
    pub number: u32,
    pub count: u32,
}
