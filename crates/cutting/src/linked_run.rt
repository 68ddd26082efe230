// A run in which a record has link 1.
ghost use Rattle.std.specs.Prelude.{◌≡◌, true};
ghost use Rattle.arena.specs.Arena.{forward};
ghost use Rattle.searching.specs.inside.Cut.{passes};
ghost use Rattle.settling.specs.inside.Cached.{Cached};
ghost use Rattle.moving.specs.inside.Advance.{RunReady, RunMoved};

use crate::cut_run::cut_run;
use arena::words::{FORWARD, get};
use moving::move_one::move_one;
use searching::search::may_pass;
use splicing::ends::Ends;

// Moves the records in front of a list, one of which has link 1, behind an open list: at once where it is one record, which
// needs no search, and else by its links.
pub fn linked_run(
    arena: &mut [u32],
    head: usize,
    key: u32,
    q: u32,
    sums: &mut [u32; 9],
    ends: &mut Ends,
)
    requires run_ready { RunReady arena.old head key ends.old.lasts }
    requires key_passes { passes arena.old (forward arena.old head 1) key ≡ true }
    requires cached { Cached arena.old head ends.old.lasts sums.old ends.old.sums }
    ensures run_moved { RunMoved arena.old arena.new head key q ends.old.lasts ends.new.lasts }
    ensures cached_after { Cached arena.new head ends.new.lasts sums.new ends.new.sums }
{
    let first = get(arena, head, FORWARD) as usize;
    let next = get(arena, first, FORWARD) as usize;
    if may_pass(arena, next, key) {
        cut_run(arena, head, key, q, sums, ends);
    } else {
        move_one(arena, head, key, q, sums, ends);
    }
}
