// The step of the merge that moves a run of the older list.
ghost use Rattle.std.specs.Prelude.{◌≡◌};
ghost use Rattle.stepping.specs.inside.Trio.{KeptIn};
ghost use Rattle.stepping.specs.inside.Running.{OlderReady, OlderDone};

use crate::beside::Beside;
use arena::sums::true_p;
use arena::words::{FORWARD, M, get};
use cutting::move_run::move_run;
use dropping::drop_tied::drop_tied;

// Moves the records of the older list whose m is at least that of the newer list's first: each p is raised by that first
// one's p and the rib. Where the last of them has the same m, the newer list's first record leaves: of two records of one m
// the older part's stays.
pub fn older_step(arena: &mut [u32], older: usize, newer: usize, rib: u32, beside: &mut Beside)
    requires older_ready { OlderReady rib arena.old older newer beside.old.ends.lasts }
    requires kept { KeptIn arena.old older newer beside.old }
    ensures older_done { OlderDone rib arena.old arena.new older newer beside.old.ends.lasts beside.new.ends.lasts }
    ensures kept_after { KeptIn arena.new older newer beside.new }
{
    let s = get(arena, newer, FORWARD) as usize;
    let key = get(arena, s, M);
    let q = true_p(arena, s, &beside.newers) + rib;
    move_run(arena, older, key, q, &mut beside.olders, &mut beside.ends);
    drop_tied(
        arena,
        newer,
        s,
        beside.ends.lasts[0],
        key,
        &mut beside.newers,
    );
}
