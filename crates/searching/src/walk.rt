// A walk along the records in front of a list.
ghost use Rattle.std.specs.Prelude.{◌≡◌, ℕ, ◌≤◌, true, List};
ghost use Rattle.arena.specs.Arena.{forward};
ghost use Rattle.searching.specs.inside.Cut.{Searchable, passes};
ghost use Rattle.searching.specs.inside.Walk.{Walked};

use arena::STRIDE;
use arena::words::{FORWARD, M, P, get, raise};

// Raises by v the p of each record in front of a list, of which there is one or more, and finds the last of them. The place
// where the next record starts is kept beside its number, since the compiler else works it out twice a turn.
pub fn walk(arena: &mut [u32], head: usize, key: u32, v: u32) -> usize
    requires searchable { ((rs : List ℕ) × Searchable arena.old head rs) × (1 ≤ key) }
    requires key_passes { passes arena.old (forward arena.old head 0) key ≡ true }
    ensures { (rs : List ℕ) → Searchable arena.old head rs → Walked arena.old arena.new head key v rs result }
{
    let mut cur = get(arena, head, FORWARD) as usize;
    raise(arena, cur, P, v);
    let mut next = get(arena, cur, FORWARD) as usize;
    let mut at = STRIDE * next;
    while key <= arena[at + M] {
        cur = next;
        arena[at + P] = arena[at + P].wrapping_add(v);
        next = arena[at + FORWARD] as usize;
        at = STRIDE * next;
    }
    cur
}
