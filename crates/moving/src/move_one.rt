// A run of one record: it goes to the result by its own links.
ghost use Rattle.std.specs.Prelude.{◌≡◌, false, ℕ, ◌<◌, length};
ghost use Rattle.arena.specs.Arena.{adjust, forward};
ghost use Rattle.arena.specs.inside.Chain.{Has};
ghost use Rattle.searching.specs.inside.Cut.{passes};
ghost use Rattle.splicing.specs.inside.Open.{cut_sums};
ghost use Rattle.settling.specs.inside.Cached.{Cached};
ghost use Rattle.moving.specs.inside.Advance.{RunReady, RunMoved};

use arena::words::{ADJUST, FORWARD, LEVEL, P, get, raise};
use searching::search::Cut;
use settling::lift::lift;
use splicing::ends::Ends;
use splicing::relink::relink;

// The adjusts of a record.
fn adjusts_of(arena: &[u32], r: usize) -> [u32; 8]
    requires { Has arena.now r }
    ensures { (8 ≡ length result) × ((k : ℕ) → k < 8 → cut_sums result k ≡ adjust arena.now r k) }
{
    let mut adjusts = [0; 8];
    for k in 0..8 {
        adjusts[k] = get(arena, r, ADJUST + k);
    }
    adjusts
}

// Moves the first record of a list, after which none passes, behind an open list. It is its own cut: nothing is searched
// for, and its p alone is raised.
pub fn move_one(
    arena: &mut [u32],
    head: usize,
    key: u32,
    q: u32,
    sums: &mut [u32; 9],
    ends: &mut Ends,
)
    requires run_ready { RunReady arena.old head key ends.old.lasts }
    requires key_stops { passes arena.old (forward arena.old (forward arena.old head 0) 0) key ≡ false }
    requires cached { Cached arena.old head ends.old.lasts sums.old ends.old.sums }
    ensures run_moved { RunMoved arena.old arena.new head key q ends.old.lasts ends.new.lasts }
    ensures cached_after { Cached arena.new head ends.new.lasts sums.new ends.new.sums }
{
    let r = get(arena, head, FORWARD) as usize;
    let links = get(arena, r, LEVEL) as usize;
    let v = lift(q, sums, ends, links);
    raise(arena, r, P, v);
    let cut = Cut {
        links,
        lasts: [r; 8],
        adjusts: adjusts_of(arena, r),
    };
    relink(arena, head, &cut, sums, ends);
}
