// Raising a stretch of a list at one link.
ghost use Rattle.std.specs.Prelude.{ℕ, ◌<◌, List};
ghost use Rattle.settling.specs.inside.Lift.{Lifting, Chained};

use arena::words::{ADJUST, FORWARD, P, get, raise};

// Raises by v the p and the adjust k of each record with link k from `first` up to `stop`, which is not raised.
pub fn raise_chain(arena: &mut [u32], first: usize, stop: usize, k: usize, v: u32)
    requires link_low { k < 8 }
    requires chained { (rs : List ℕ) × Chained arena.old k first stop rs }
    ensures { (rs : List ℕ) → Chained arena.old k first stop rs → Lifting arena.old arena.new k v rs }
{
    let mut cur = first;
    while cur != stop {
        raise(arena, cur, P, v);
        raise(arena, cur, ADJUST + k, v);
        cur = get(arena, cur, FORWARD + k) as usize;
    }
}
