// The links that a walk along a list is to meet. A row of eight words has for each link from 1 up the record that the
// last forward with it names. The walk itself goes by link 0, whose word is not kept.
ghost use Rattle.std.specs.Prelude.{◌≡◌, ◌≤◌, true, length};
ghost use Rattle.arena.specs.Arena.{level};
ghost use Rattle.arena.specs.inside.Chain.{Has};
ghost use Rattle.arena.specs.inside.Sums.{Summable, Renewed};
ghost use Rattle.forwards.specs.inside.Due.{Decides, Are, Passed};

use arena::words::{ADJUST, FORWARD, LEVEL, get};

// Makes the forwards of the head due, which has all links.
pub fn due_from_head(arena: &[u32], due: &mut [u32])
    requires { Has arena.now 0 × (level arena.now 0 ≡ 8) × (8 ≤ length due.old) }
    ensures { Passed arena.now 0 due.old due.new }
{
    for k in (1..8).rev() {
        due[k] = get(arena, 0, FORWARD + k);
    }
}

// Passes record r, and answers whether it was due with each of its links from 1 up: its forwards are due from here on,
// and the sums below its level are renewed by its adjusts.
pub fn pass_links(arena: &[u32], r: usize, due: &mut [u32], sums: &mut [u32]) -> bool
    requires { Summable arena.now r sums.old × (8 ≤ length due.old) }
    ensures decides { Decides result (Are due.old (level arena.now r) r) }
    ensures passed { result ≡ true → Passed arena.now r due.old due.new }
    ensures renewed { result ≡ true → Renewed arena.now r sums.old sums.new }
{
    let level = get(arena, r, LEVEL) as usize;
    for k in (1..level).rev() {
        if due[k] as usize != r {
            return false;
        }
        due[k] = get(arena, r, FORWARD + k);
        sums[k] = sums[k + 1].wrapping_add(get(arena, r, ADJUST + k));
    }
    true
}

// Whether no record is due with a link from 1 up.
pub fn none_due(due: &[u32]) -> bool
    requires { 8 ≤ length due.now }
    ensures { Decides result (Are due.now 8 0) }
{
    due[1..8].iter().all(|&r| r == 0)
}
