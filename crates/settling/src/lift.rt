// What records are raised by when they change lists.
ghost use Rattle.std.specs.Prelude.{ℕ, ◌≤◌};
ghost use Rattle.arena.specs.inside.Sums.{Suffixes};
ghost use Rattle.settling.specs.inside.Cached.{MakesUp};

use splicing::ends::Ends;

// What the p of a record of level l is raised by, for its true p to be q more: q, and what the sums that lead to it from
// link l up are more than those that will. All modulo 4,294,967,296.
pub fn lift(q: u32, sums: &[u32; 9], ends: &Ends, l: usize) -> u32
    requires { (1 ≤ l) × (l ≤ 8) }
    ensures { (f g : ℕ → ℕ) → Suffixes f sums.now → Suffixes g ends.now.sums → MakesUp f g l q result }
{
    q.wrapping_add(sums[l].wrapping_sub(ends.sums[l]))
}
