// A record put before the records of a list. A list is built so, from its last record to its first.
ghost use Rattle.std.specs.Prelude.{◌≡◌, ◌≤◌, ◌<◌};
ghost use Rattle.arena.specs.Arena.{level};
ghost use Rattle.building.specs.inside.Building.{hook1, Hooked, Hookable};

use arena::words::{ADJUST, FORWARD, LEVEL, get, store};

// Puts link k of record r between the head and what follows the head by it. The adjust is that of a head whose adjusts
// are 0, so that the true p of what follows stays.
pub fn hook(arena: &mut [u32], head: usize, r: usize, k: usize)
    requires { Hookable arena.old head r × (k < 8) }
    ensures { arena.new ≡ hook1 arena.old head r k }
{
    let next = get(arena, head, FORWARD + k);
    store(arena, r, FORWARD + k, next);
    store(arena, r, ADJUST + k, 0);
    store(arena, head, FORWARD + k, r as u32);
}

// Puts record r, by each link from 1 up that it has, before the list of a head. Link 0 is the caller's.
pub fn prepend(arena: &mut [u32], head: usize, r: usize)
    requires { Hookable arena.old head r × (1 ≤ level arena.old r) × (level arena.old r ≤ 8) }
    ensures { Hooked 1 (level arena.old r) arena.old head r arena.new }
{
    let level = get(arena, r, LEVEL) as usize;
    for k in (1..level).rev() {
        hook(arena, head, r, k);
    }
}
