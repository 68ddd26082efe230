// A run of records that have link 0 alone: it goes to the result by one walk.
ghost use Rattle.std.specs.Prelude.{◌≡◌, false};
ghost use Rattle.arena.specs.Arena.{forward};
ghost use Rattle.searching.specs.inside.Cut.{passes};
ghost use Rattle.settling.specs.inside.Cached.{Cached};
ghost use Rattle.moving.specs.inside.Advance.{RunReady, RunMoved};

use arena::words::{ADJUST, get};
use searching::walk::walk;
use settling::lift::lift;
use splicing::ends::Ends;
use splicing::relink::relink_lowest;

// Moves the records in front of a list, none of which has link 1, behind an open list. Their sums from link 1 up are
// those of the head before and those of the ends after, and link 0 counts for no true p, so that all are raised alike.
pub fn walk_run(arena: &mut [u32], head: usize, key: u32, q: u32, sums: &[u32; 9], ends: &mut Ends)
    requires run_ready { RunReady arena.old head key ends.old.lasts }
    requires key_stops { passes arena.old (forward arena.old head 1) key ≡ false }
    requires cached { Cached arena.old head ends.old.lasts sums.now ends.old.sums }
    ensures run_moved { RunMoved arena.old arena.new head key q ends.old.lasts ends.new.lasts }
    ensures cached_after { Cached arena.new head ends.new.lasts sums.now ends.new.sums }
    ensures sums_same { ends.new.sums ≡ ends.old.sums }
{
    let v = lift(q, sums, ends, 1);
    let to = walk(arena, head, key, v);
    let sum = get(arena, to, ADJUST);
    relink_lowest(arena, head, ends.lasts[0], to, sum);
    ends.lasts[0] = to;
}
