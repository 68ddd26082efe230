// The step of the merge that moves a run of the newer list.
ghost use Rattle.std.specs.Prelude.{◌≡◌};
ghost use Rattle.stepping.specs.inside.Trio.{KeptIn};
ghost use Rattle.stepping.specs.inside.Running.{NewerReady, NewerDone};

use crate::beside::Beside;
use arena::sums::true_p;
use arena::words::{FORWARD, M, get};
use cutting::move_run::move_run;

// Moves the records of the newer list whose m is larger than that of the older list's first: each p is raised by that
// first one's p and the rib.
pub fn newer_step(arena: &mut [u32], older: usize, newer: usize, rib: u32, beside: &mut Beside)
    requires newer_ready { NewerReady rib arena.old older newer beside.old.ends.lasts }
    requires kept { KeptIn arena.old older newer beside.old }
    ensures newer_done { NewerDone rib arena.old arena.new older newer beside.old.ends.lasts beside.new.ends.lasts }
    ensures kept_after { KeptIn arena.new older newer beside.new }
{
    let r = get(arena, older, FORWARD) as usize;
    let key = get(arena, r, M) + 1;
    let q = true_p(arena, r, &beside.olders) + rib;
    move_run(arena, newer, key, q, &mut beside.newers, &mut beside.ends);
}
