// The limits that the questions of documents 01 and 02 name and that more than one place needs.

// The gauges of a face.
pub const GAUGES: usize = 64;

// The sizes of a face, and so the records of its lists.
pub const SIZES: usize = 512;

// The rib between two parts.
pub const RIB: u32 = 20;

// The height and the width of an opening: 64 gauges of 1,000, and ribs of 20 between them.
pub const OPENING: u32 = 65_260;

// The words of an arena and of a scratch.
pub const WORDS: usize = 16_384;

// The heights of a catalogue.
pub const HEIGHTS: usize = 256;
