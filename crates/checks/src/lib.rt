// The numbers of the checks of documents 01 and 02. A "no" answers with its check's number, and a taken call with 0.
#![tactic(auto)]

ghost use Rattle.std.specs.Prelude.{◌≡◌};
ghost use Rattle.checks.specs.Check.{number_of};

pub mod limits;

// Document 01, "The checks, as questions", and document 02's, in the order of their numbers. Each stands for the question that
// is answered "no". The order in which a call asks them is that of the call's own definition.
#[derive(Clone, Copy, PartialEq, Eq)]
pub enum Check {
    // 7 bytes or more?
    Length = 1,
    // First three `FCE`?
    Mark = 2,
    // Version 1 or 2?
    Version = 3,
    // Entries 1 to 127?
    Entries = 4,
    // Kind byte present? Size-count byte present? All bytes of its sizes present?
    Present = 5,
    // Kind 01, 02 or 03?
    Kind = 6,
    // Count 1 to 8?
    SizeCount = 7,
    // Height and width both 1 to 1,000?
    Limits = 8,
    // In version 1: height less and width more than the size before?
    Order = 9,
    // At most the 64th?
    Gauges = 10,
    // Two parts on the stack?
    Join = 11,
    // One part left?
    OnePart = 12,
    // File at its end?
    AtEnd = 13,
    // As many levels as sizes?
    LevelCount = 14,
    // Each level 1 to 8?
    LevelRange = 15,
    // Opening height and width both 1 to 65,260?
    Opening = 16,
    // Arena and scratch, each 16,384 32-bit words or more?
    Buffers = 17,
    // Output long enough?
    Output = 18,
    // Does a layout fit?
    Fits = 19,
    // Does the arena hold a lazy list?
    LazyList = 20,
    // Is the place from 1 to its length?
    Place = 21,
    // Rib at most 20?
    Rib = 22,
    // At most 256 heights, each 1 or more and no more than the one before?
    Heights = 23,
}

impl Check {
    // The number that a "no" answers with.
    pub fn number(self) -> u32
        ensures { result ≡ number_of self }
    {
        self as u32
    }
}
