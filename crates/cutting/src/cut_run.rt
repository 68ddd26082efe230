// A run of records that goes to the result by its links: it is cut, settled and relinked, link by link.
ghost use Rattle.std.specs.Prelude.{◌≡◌, true};
ghost use Rattle.arena.specs.Arena.{forward};
ghost use Rattle.searching.specs.inside.Cut.{passes};
ghost use Rattle.settling.specs.inside.Cached.{Cached};
ghost use Rattle.moving.specs.inside.Advance.{RunReady, RunMoved};

use searching::search::{count_links, search};
use settling::settle::settle;
use splicing::ends::Ends;
use splicing::relink::relink;

// Moves the records in front of a list, one of which has link 1, behind an open list. An adjust raises all that it covers,
// so that not every record is visited.
pub fn cut_run(
    arena: &mut [u32],
    head: usize,
    key: u32,
    q: u32,
    sums: &mut [u32; 9],
    ends: &mut Ends,
)
    requires run_ready { RunReady arena.old head key ends.old.lasts }
    requires key_passes { passes arena.old (forward arena.old head 1) key ≡ true }
    requires cached { Cached arena.old head ends.old.lasts sums.old ends.old.sums }
    ensures run_moved { RunMoved arena.old arena.new head key q ends.old.lasts ends.new.lasts }
    ensures cached_after { Cached arena.new head ends.new.lasts sums.new ends.new.sums }
{
    let links = count_links(arena, head, key);
    let cut = search(arena, head, key, links);
    settle(arena, head, &cut, q, sums, ends);
    relink(arena, head, &cut, sums, ends);
}
