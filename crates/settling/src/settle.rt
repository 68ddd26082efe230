// Settling the front of a list that is to follow another one.
ghost use Rattle.std.specs.Prelude.{ℕ, List};
ghost use Rattle.settling.specs.inside.Cached.{Cached};
ghost use Rattle.settling.specs.inside.Settled.{Ready, Settled};

use crate::lift::lift;
use crate::raise_chain::raise_chain;
use crate::raise_lowest::raise_lowest;
use arena::words::{FORWARD, get};
use searching::search::Cut;
use splicing::ends::Ends;

// Changes p and adjusts of the front of a list, where it is cut, for it to follow the ends of another list: each true p,
// from the sums of these, is q more than it was from those of the head. Link by link from the highest, the records before
// the first with the link above are raised.
pub fn settle(arena: &mut [u32], head: usize, cut: &Cut, q: u32, sums: &[u32; 9], ends: &Ends)
    requires { (lasts : List ℕ) × (front : List ℕ) × (back : List ℕ) × Ready arena.old head cut.now.links cut.now.lasts front back × Cached arena.old head lasts sums.now ends.now.sums }
    ensures { (lasts front back : List ℕ) → Ready arena.old head cut.now.links cut.now.lasts front back → Cached arena.old head lasts sums.now ends.now.sums → Settled arena.old arena.new head q lasts front }
{
    let top = cut.links - 1;
    let mut stop = get(arena, cut.lasts[top], FORWARD + top) as usize;
    for k in (1..cut.links).rev() {
        let first = get(arena, head, FORWARD + k) as usize;
        let carry = lift(q, sums, ends, k + 1);
        raise_chain(arena, first, stop, k, carry);
        stop = first;
    }
    let first = get(arena, head, FORWARD) as usize;
    let carry = lift(q, sums, ends, 1);
    raise_lowest(arena, first, stop, carry);
}
