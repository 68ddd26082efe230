// The words of a record in an arena.
ghost use Rattle.std.specs.Prelude.{◌≤◌};

// One more than the most items of a list.
pub const PLACES: u32 = 513;

// How many words a record has, and the places of some of them.
const RECORD: usize = 20;

pub const LEVEL: usize = 0;

pub const M: usize = 1;

pub const FORWARD: usize = 3;

pub const BACK: usize = 19;

// Word j of record r, and 0 past the arena's end.
pub fn word(arena: &[u32], r: u32, j: usize) -> u32
    requires { j ≤ 19 }
{
    arena.get(RECORD * r as usize + j).copied().unwrap_or(0)
}
