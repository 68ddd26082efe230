// The running sums of a walk along a list: for each link the adjust of the last record passed that has it. They are held
// as sums from a link up, so that a true p is one addition.
ghost use Rattle.arena.specs.Arena.{adjust};
ghost use Rattle.arena.specs.inside.Sums.{Summable, Enterable, Suffixes, TrueP, Renewed};

use crate::words::{ADJUST, LEVEL, P, get};

// The true p of a record that the sums lead to: what it stores and the sum from its level up.
pub fn true_p(arena: &[u32], r: usize, sums: &[u32]) -> u32
    requires { Summable arena.now r sums.now }
    ensures { TrueP arena.now r sums.now result }
{
    let level = get(arena, r, LEVEL) as usize;
    get(arena, r, P).wrapping_add(sums[level])
}

// Makes the sums those of a head, with which a walk enters its list. A head has every link, so that none of its words but
// the adjusts is read.
pub fn enter(arena: &[u32], head: usize, sums: &mut [u32])
    requires { Enterable arena.now head sums.old }
    ensures { Suffixes (adjust arena.now head) sums.new }
{
    for k in (1..8).rev() {
        sums[k] = sums[k + 1].wrapping_add(get(arena, head, ADJUST + k));
    }
}

// Renews the sums below a record's level by its adjusts, as the walk passes it. Link 0 counts for no true p, and no sum
// from it up is kept.
pub fn pass(arena: &[u32], r: usize, sums: &mut [u32])
    requires { Summable arena.now r sums.old }
    ensures { Renewed arena.now r sums.old sums.new }
{
    let level = get(arena, r, LEVEL) as usize;
    for k in (1..level).rev() {
        sums[k] = sums[k + 1].wrapping_add(get(arena, r, ADJUST + k));
    }
}
