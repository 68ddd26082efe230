// The leaving of a list's first record.
ghost use Rattle.std.specs.Prelude.{◌≡◌, List, ◌∷◌, ℕ, ◌<◌};
ghost use Rattle.arena.specs.inside.Chain.{Has, Linked};
ghost use Rattle.dropping.specs.inside.Dropping.{handed, Dropped};

use arena::words::{ADJUST, FORWARD, LEVEL, get, store};

// Hands link k of a record over to the head: its forward and its adjust.
fn hand_over(arena: &mut [u32], head: usize, r: usize, k: usize)
    requires { Has arena.old head × Has arena.old r × (k < 8) }
    ensures { arena.new ≡ handed arena.old head r k }
{
    let forward = get(arena, r, FORWARD + k);
    store(arena, head, FORWARD + k, forward);
    let adjust = get(arena, r, ADJUST + k);
    store(arena, head, ADJUST + k, adjust);
}

// Takes the first record off a list that has one. What its adjusts covered is covered by the head's from then on.
pub fn drop_first(arena: &mut [u32], head: usize)
    requires { (r : ℕ) × (rs : List ℕ) × Linked arena.old head (r ∷ rs) }
    ensures { (r : ℕ) (rs : List ℕ) → Linked arena.old head (r ∷ rs) → Dropped arena.old arena.new head r rs }
{
    let r = get(arena, head, FORWARD) as usize;
    let level = get(arena, r, LEVEL) as usize;
    for k in 0..level {
        hand_over(arena, head, r, k);
    }
}
