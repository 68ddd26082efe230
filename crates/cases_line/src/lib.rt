// What stands in the line of a case: its name and its file, which are shown as they are read; numbers, bytes in
// hexadecimal, and the words of a buffer that it replaces.
#![tactic(auto)]

mod bytes;
pub mod file;
pub mod given;
pub mod line;
mod words;
