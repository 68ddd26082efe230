// Turning a list: m and p change places and the order reverses.
ghost use Rattle.std.specs.Prelude.{ℕ, List};
ghost use Rattle.arena.specs.Arena.{level};
ghost use Rattle.building.specs.inside.Building.{Hooked};
ghost use Rattle.arena.specs.inside.Sums.{Suffixes, Renewed};
ghost use Rattle.turning.specs.inside.Turning.{TakenOver, Turnable1, Turnable, Turned};

use arena::sums::{enter, true_p};
use arena::words::{ADJUST, BACK, FORWARD, LEVEL, M, P, get, store};
use building::empty::clear_head;
use building::prepend::hook;

// Renews the sums by a record's adjusts, as `pass` does, and puts its links from 1 up before the list of a head.
fn turn_links(arena: &mut [u32], to: usize, r: usize, sums: &mut [u32])
    requires { Turnable1 arena.old to r sums.old }
    ensures hooked { Hooked 1 (level arena.old r) arena.old to r arena.new }
    ensures renewed { Renewed arena.old r sums.old sums.new }
{
    let level = get(arena, r, LEVEL) as usize;
    for k in (1..level).rev() {
        sums[k] = sums[k + 1].wrapping_add(get(arena, r, ADJUST + k));
        hook(arena, to, r, k);
    }
}

// Takes the record that the sums lead to over to another head: its m is then its true p, its p is its m, and the record
// after it is `last`, the first one so far of the list that is made.
fn turn_record(arena: &mut [u32], to: usize, r: usize, last: u32, sums: &mut [u32])
    requires { Turnable1 arena.old to r sums.old }
    ensures taken_over { (f : ℕ → ℕ) → Suffixes f sums.old → TakenOver arena.old f to r last arena.new }
    ensures renewed { Renewed arena.old r sums.old sums.new }
{
    let m = get(arena, r, M);
    let p = true_p(arena, r, sums);
    store(arena, r, M, p);
    store(arena, r, P, m);
    store(arena, r, FORWARD, last);
    turn_links(arena, to, r, sums);
}

// Turns the list of one head into that of another, which is made anew. The old head's words stay. The new head's first
// forward is kept beside the arena and stored at the end. What came after a record comes before it then, and what was the
// first item is the last.
pub fn turn(arena: &mut [u32], from: usize, to: usize)
    requires { (rs : List ℕ) × Turnable arena.old from to rs }
    ensures { (rs : List ℕ) → Turnable arena.old from to rs → Turned arena.old from to rs arena.new }
{
    clear_head(arena, to);
    let mut sums = [0u32; 9];
    enter(arena, from, &mut sums);
    let first = get(arena, from, FORWARD);
    let mut next = first;
    let mut last = 0;
    while next != 0 {
        let r = next as usize;
        let after = get(arena, r, FORWARD);
        turn_record(arena, to, r, last, &mut sums);
        store(arena, r, BACK, after);
        last = next;
        next = after;
    }
    store(arena, to, FORWARD, last);
    store(arena, to, BACK, first);
}
