// The maxplus merge of two lazy lists.
ghost use Rattle.std.specs.Prelude.{List, ℕ};
ghost use Rattle.merging.specs.inside.Merge.{Mergeable, Merged};

use crate::runs::merge_runs;
use arena::words::{BACK, store};
use building::empty::clear_head;
use splicing::ends::Ends;
use stepping::beside::Beside;

// Makes the list of record 0 the merge of the lists of two heads, with a rib in each sum: whole runs of records change
// lists at once, and an adjust raises all that it covers. The sums of the heads and of the ends are kept beside the
// arena: 0 at the start, as the adjusts of a list that was made are at its head. Record 0 is cleared first, so that its m
// ends every search. Its back word is the last record of the result. The two heads are used up.
pub fn merge(arena: &mut [u32], older: usize, newer: usize, rib: u32)
    requires { (xs : List ℕ) × (ys : List ℕ) × Mergeable rib arena.old older newer 0 xs ys }
    ensures { (xs ys : List ℕ) → Mergeable rib arena.old older newer 0 xs ys → Merged rib arena.old arena.new older newer 0 xs ys }
{
    clear_head(arena, 0);
    let ends = Ends {
        lasts: [0; 8],
        sums: [0; 9],
    };
    let mut beside = Beside {
        olders: [0; 9],
        newers: [0; 9],
        ends,
    };
    merge_runs(arena, older, newer, rib, &mut beside);
    beside.ends.close(arena);
    store(arena, 0, BACK, beside.ends.lasts[0] as u32);
}
