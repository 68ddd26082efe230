// What a case gives to its call.
use crate::line::Line;

// The numbers of a case.
#[derive(Clone, Copy)]
pub struct Numbers {
    pub height: u32,
    pub width: u32,
    pub arena: usize,
    pub scratch: usize,
    pub output: usize,
    pub rib: u32,
}

impl Numbers {
    // The six numbers that stand next, with a sign before each.
    pub fn read(line: &mut Line<'_>) -> Numbers {
        Numbers {
            height: line.next_number(),
            width: line.next_number(),
            arena: line.next_number() as usize,
            scratch: line.next_number() as usize,
            output: line.next_number() as usize,
            rib: line.next_number(),
        }
    }
}

// The file of a case, its levels and its numbers, and the words that are to be replaced.
#[derive(Clone, Copy)]
pub struct Given<'a> {
    pub file: &'a [u8],
    pub levels: &'a [u8],
    pub numbers: Numbers,
    pub replaced: Line<'a>,
}
