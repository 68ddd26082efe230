// The runs of the merge, one after the other, while both lists have a record.
ghost use Rattle.std.specs.Prelude.{◌≡◌};
ghost use Rattle.arena.specs.inside.Chain.{Has};
ghost use Rattle.stepping.specs.inside.Trio.{KeptIn};
ghost use Rattle.merging.specs.inside.Runs.{StepReady, StepDone, both_wait, RunsReady, RunsDone};

use arena::words::{FORWARD, M, get};
use stepping::beside::Beside;
use stepping::newer_step::newer_step;
use stepping::older_step::older_step;

// Whether both lists have a record.
fn both_wait(arena: &[u32], older: usize, newer: usize) -> bool
    requires { Has arena.now older × Has arena.now newer }
    ensures { result ≡ both_wait arena.now older newer }
{
    1 <= get(arena, older, FORWARD) && 1 <= get(arena, newer, FORWARD)
}

// Moves a run of the list whose first m is the larger. At equal m the older list goes first.
fn step(arena: &mut [u32], older: usize, newer: usize, rib: u32, beside: &mut Beside)
    requires step_ready { StepReady rib arena.old older newer beside.old.ends.lasts }
    requires kept { KeptIn arena.old older newer beside.old }
    ensures step_done { StepDone rib arena.old arena.new older newer beside.old.ends.lasts beside.new.ends.lasts }
    ensures kept_after { KeptIn arena.new older newer beside.new }
{
    let r = get(arena, older, FORWARD) as usize;
    let s = get(arena, newer, FORWARD) as usize;
    let top = get(arena, r, M);
    if get(arena, s, M) <= top {
        older_step(arena, older, newer, rib, beside);
    } else {
        newer_step(arena, older, newer, rib, beside);
    }
}

// Moves runs to the open list until one of the two lists is empty. What the other still has is no part of the merge.
pub fn merge_runs(arena: &mut [u32], older: usize, newer: usize, rib: u32, beside: &mut Beside)
    requires runs_ready { RunsReady rib arena.old older newer beside.old.ends.lasts }
    requires kept { KeptIn arena.old older newer beside.old }
    ensures runs_done { RunsDone rib arena.old arena.new older newer beside.old.ends.lasts beside.new.ends.lasts }
    ensures kept_after { KeptIn arena.new older newer beside.new }
{
    while both_wait(arena, older, newer) {
        step(arena, older, newer, rib, beside);
    }
}
