// The ends of an open list.
ghost use Rattle.std.specs.Prelude.{ℕ, List};
ghost use Rattle.splicing.specs.inside.Open.{OpenLinked, EndsOf, Closed};

use arena::words::{FORWARD, store};

// The last record with each link of a list that is open, the head where there is none, and the sums that a walk has behind
// them.
#[derive(Clone, Copy)]
pub struct Ends {
    pub lasts: [usize; 8],
    pub sums: [u32; 9],
}

impl Ends {
    // Closes the list: makes forward k of its last record with link k 0, for every k.
    pub fn close(&self, arena: &mut [u32])
        requires { (h : ℕ) × (cs : List ℕ) × OpenLinked arena.old h cs × EndsOf arena.old h cs self.now.lasts }
        ensures { (h : ℕ) (cs : List ℕ) → OpenLinked arena.old h cs → EndsOf arena.old h cs self.now.lasts → Closed arena.old arena.new h cs self.now.lasts }
    {
        for (k, last) in self.lasts.iter().enumerate() {
            store(arena, *last, FORWARD + k, 0);
        }
    }
}
