// The join of two parts.
ghost use Rattle.std.specs.Prelude.{List, ℕ, ◌≤◌};
ghost use Rattle.checks.specs.Limits.{most_rib};
ghost use Rattle.slicing.specs.Recorded.{Recorded};
ghost use Rattle.parts.specs.inside.Joining.{Turns, Faces, Joinable, Joined, crosses};

use crate::heads::{FIRST, copy_head};
use entries::Kind;
use merging::merge::merge;
use turning::turn::turn;

// The heads that turned parts get, above those of all places of the stack.
const OLDER_TURNED: usize = FIRST + checks::limits::GAUGES;

const NEWER_TURNED: usize = OLDER_TURNED + 1;

// The head of a part's list that runs the way it is joined: where it does not, it is turned to the spare head.
fn facing(arena: &mut [u32], head: usize, spare: usize, part: Kind, join: Kind) -> usize
    requires { (levels : List ℕ) × (lo : ℕ) × (hi : ℕ) × (l : List Recorded) × Turns levels arena.old head spare lo hi l }
    ensures { (levels : List ℕ) (lo hi : ℕ) (l : List Recorded) → Turns levels arena.old head spare lo hi l → Faces levels arena.old arena.new head spare lo hi l (crosses part join) result }
{
    if part.runs_across(join) {
        turn(arena, head, spare);
        return spare;
    }
    head
}

// Joins the part at a place of the stack and the one after it, of these kinds, with a rib between them, each turned first
// where it runs the other way. The join takes the older part's place.
pub fn join(arena: &mut [u32], place: usize, older: Kind, newer: Kind, kind: Kind, rib: u32)
    requires rib_small { rib ≤ most_rib }
    requires joinable { (levels : List ℕ) × (lo : ℕ) × (mid : ℕ) × (hi : ℕ) × (l : List Recorded) × (k : List Recorded) × Joinable levels arena.old place lo mid hi l k (crosses older kind) (crosses newer kind) }
    ensures { (levels : List ℕ) (lo mid hi : ℕ) (l k : List Recorded) → Joinable levels arena.old place lo mid hi l k (crosses older kind) (crosses newer kind) → Joined rib levels arena.old arena.new place lo mid hi l k (crosses older kind) (crosses newer kind) }
{
    let first = facing(arena, FIRST + place, OLDER_TURNED, older, kind);
    let second = facing(arena, FIRST + (place + 1), NEWER_TURNED, newer, kind);
    merge(arena, first, second, rib);
    copy_head(arena, 0, FIRST + place);
}
