// A run of records, moved the way that its links ask for.
ghost use Rattle.std.specs.Prelude.{◌≡◌};
ghost use Rattle.settling.specs.inside.Cached.{Cached};
ghost use Rattle.moving.specs.inside.Advance.{RunReady, RunMoved};

use crate::linked_run::linked_run;
use arena::words::{FORWARD, get};
use moving::walk_run::walk_run;
use searching::search::may_pass;
use splicing::ends::Ends;

// The forward of link 1, which leads from a head to the first record that has more than one link.
const SECOND: usize = FORWARD + 1;

// Moves the records in front of a list behind an open list: by their links where one of them has link 1, and else by one
// walk. Both steps of the merge so have the walk, which most runs are, in the merge's own loop.
#[inline(always)]
pub fn move_run(
    arena: &mut [u32],
    head: usize,
    key: u32,
    q: u32,
    sums: &mut [u32; 9],
    ends: &mut Ends,
)
    requires run_ready { RunReady arena.old head key ends.old.lasts }
    requires cached { Cached arena.old head ends.old.lasts sums.old ends.old.sums }
    ensures run_moved { RunMoved arena.old arena.new head key q ends.old.lasts ends.new.lasts }
    ensures cached_after { Cached arena.new head ends.new.lasts sums.new ends.new.sums }
{
    let second = get(arena, head, SECOND) as usize;
    if may_pass(arena, second, key) {
        linked_run(arena, head, key, q, sums, ends);
    } else {
        walk_run(arena, head, key, q, sums, ends);
    }
}
