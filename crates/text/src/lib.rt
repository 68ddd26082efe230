// Text in a lent buffer: bytes, numbers in base ten, and words before a number.
#![tactic(auto)]

pub mod page;
