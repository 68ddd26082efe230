// Raising a stretch of a list at the lowest link.
ghost use Rattle.std.specs.Prelude.{ℕ, List};
ghost use Rattle.settling.specs.inside.Lift.{Lifting, Chained};

use arena::words::{FORWARD, P, get, raise};

// Raises by v the p of each record from `first` up to `stop`, which is not raised. The adjusts of link 0 count for no true
// p, and stay.
pub fn raise_lowest(arena: &mut [u32], first: usize, stop: usize, v: u32)
    requires { (rs : List ℕ) × Chained arena.old 0 first stop rs }
    ensures { (rs : List ℕ) → Chained arena.old 0 first stop rs → Lifting arena.old arena.new 0 v rs }
{
    let mut cur = first;
    while cur != stop {
        raise(arena, cur, P, v);
        cur = get(arena, cur, FORWARD) as usize;
    }
}
