// The head of an empty list.
ghost use Rattle.arena.specs.inside.Chain.{Has};
ghost use Rattle.building.specs.inside.Building.{Cleared};

use arena::STRIDE;
use arena::words::{LEVEL, store};

// Makes a record the head of an empty list: level 8, and every other word 0.
pub fn clear_head(arena: &mut [u32], head: usize)
    requires { Has arena.old head }
    ensures { Cleared arena.old head arena.new }
{
    for j in 1..STRIDE {
        store(arena, head, j, 0);
    }
    store(arena, head, LEVEL, 8);
}
