// The words of a record.
ghost use Rattle.std.specs.Prelude.{◌≡◌, ◌<◌};
ghost use Rattle.arena.specs.Arena.{stride, word};
ghost use Rattle.arena.specs.inside.Chain.{Has, put, wrap};

use crate::STRIDE;

// "Word 0 is the level, 1 is m, 2 is p, 3 to 10 are forward 1 to 8, 11 to 18 are adjust 1 to 8." Links are counted from 0:
// link k has the forward at FORWARD + k and the adjust at ADJUST + k.
pub const LEVEL: usize = 0;

pub const M: usize = 1;

pub const P: usize = 2;

pub const FORWARD: usize = 3;

pub const ADJUST: usize = 11;

// "Word 19 is the record before it on the list; in the first item it is 0, and in the head it is the last item".
pub const BACK: usize = 19;

// Word j of record r.
pub fn get(arena: &[u32], r: usize, j: usize) -> u32
    requires { Has arena.now r × (j < stride) }
    ensures { result ≡ word arena.now r j }
{
    arena[STRIDE * r + j]
}

// Sets word j of record r.
pub fn store(arena: &mut [u32], r: usize, j: usize, v: u32)
    requires { Has arena.old r × (j < stride) }
    ensures { arena.new ≡ put arena.old r j v }
{
    arena[STRIDE * r + j] = v;
}

// Adds to word j of record r, modulo 4,294,967,296.
pub fn raise(arena: &mut [u32], r: usize, j: usize, v: u32)
    requires { Has arena.old r × (j < stride) }
    ensures { arena.new ≡ put arena.old r j (wrap (word arena.old r j) v) }
{
    let at = STRIDE * r + j;
    arena[at] = arena[at].wrapping_add(v);
}

// A word as an index.
pub fn wide(x: u32) -> usize
    ensures { result ≡ x }
{
    x as usize
}
