// Moving the front of a list behind an open list.
ghost use Rattle.std.specs.Prelude.{◌≡◌, ◌<◌};
ghost use Rattle.arena.specs.Arena.{forward};
ghost use Rattle.arena.specs.inside.Chain.{Has};
ghost use Rattle.arena.specs.inside.Sums.{RenewedBelow};
ghost use Rattle.splicing.specs.inside.Open.{relink_one, relink_lowest, FrontReady, FrontMoved, last_sums, cut_sums};

use crate::ends::Ends;
use arena::words::{ADJUST, BACK, FORWARD, get, store};
use searching::search::Cut;

// Moves the records of the head up to `to` behind `from` at link k, and makes adjust k of the head v.
pub fn relink_one(arena: &mut [u32], head: usize, from: usize, to: usize, k: usize, v: u32)
    requires { (k < 8) × Has arena.old head × Has arena.old from × Has arena.old to }
    ensures { arena.new ≡ relink_one arena.old head from to k v }
{
    let first = get(arena, head, FORWARD + k);
    store(arena, from, FORWARD + k, first);
    let rest = get(arena, to, FORWARD + k);
    store(arena, head, FORWARD + k, rest);
    store(arena, head, ADJUST + k, v);
}

// The same at link 0, which also leads back: the back word of the first of these records becomes `from`.
pub fn relink_lowest(arena: &mut [u32], head: usize, from: usize, to: usize, v: u32)
    requires records_there { Has arena.old head × Has arena.old from × Has arena.old to }
    requires front_there { Has arena.old (forward arena.old head 0) × (from < 4_294_967_296) }
    ensures { arena.new ≡ relink_lowest arena.old head from to v }
{
    let first = get(arena, head, FORWARD) as usize;
    relink_one(arena, head, from, to, 0, v);
    store(arena, first, BACK, from as u32);
}

// Moves the records in front of a list, where it is cut, behind the ends of an open list. The sums of the head and those of
// the ends are renewed on the way down; link 0 counts for none of them.
pub fn relink(arena: &mut [u32], head: usize, cut: &Cut, sums: &mut [u32; 9], ends: &mut Ends)
    requires { FrontReady arena.old head cut.now ends.old }
    ensures front_moved { FrontMoved arena.old arena.new head cut.now ends.old ends.new }
    ensures sums_renewed { RenewedBelow (cut_sums cut.now.adjusts) cut.now.links sums.old sums.new }
    ensures lasts_renewed { RenewedBelow (last_sums arena.old cut.now.lasts) cut.now.links ends.old.sums ends.new.sums }
{
    for k in (1..cut.links).rev() {
        let to = cut.lasts[k];
        let adjust = cut.adjusts[k];
        relink_one(arena, head, ends.lasts[k], to, k, adjust);
        ends.lasts[k] = to;
        sums[k] = sums[k + 1].wrapping_add(adjust);
        ends.sums[k] = ends.sums[k + 1].wrapping_add(get(arena, to, ADJUST + k));
    }
    let to = cut.lasts[0];
    relink_lowest(arena, head, ends.lasts[0], to, cut.adjusts[0]);
    ends.lasts[0] = to;
}
