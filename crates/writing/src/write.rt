// The items of a list of an arena, written into a buffer: height and width of each, from the tallest to the lowest.
ghost use Rattle.std.specs.Prelude.{◌≡◌, List, [], ℕ, ◌+◌, ◌≤◌, length};
ghost use Rattle.slicing.specs.Recorded.{items};
ghost use Rattle.slicing.specs.Merge.{turn};
ghost use Rattle.arena.specs.Lazy.{held};
ghost use Rattle.lent.specs.Lent.{written_over};
ghost use Rattle.writing.specs.Words.{list_words};
ghost use Rattle.writing.specs.inside.Writing.{Listable, item_at};

use arena::sums::{enter, pass, true_p};
use arena::words::{FORWARD, M, get, wide};

// Writes one item at a place.
fn write_item(output: &mut [u32], at: usize, height: u32, width: u32)
    requires { at + 2 ≤ length output.old }
    ensures { output.new ≡ item_at output.old at height width }
{
    output[at] = height;
    output[at + 1] = width;
}

// Writes the items of a list whose m is the height: in the list's order, from the buffer's start. Answers their number.
pub fn write_by_height(arena: &[u32], head: usize, output: &mut [u32]) -> usize
    requires { (rs : List ℕ) × Listable arena.now head rs output.old }
    ensures { (rs : List ℕ) → Listable arena.now head rs output.old → (result ≡ length rs) × (output.new ≡ written_over (list_words (items (held arena.now head [] rs))) output.old) }
{
    let mut sums = [0u32; 9];
    enter(arena, head, &mut sums);
    let mut next = get(arena, head, FORWARD);
    let mut at = 0;
    while next != 0 {
        let r = wide(next);
        next = get(arena, r, FORWARD);
        let height = get(arena, r, M);
        let width = true_p(arena, r, &sums);
        write_item(output, at, height, width);
        pass(arena, r, &mut sums);
        at += 2;
    }
    at / 2
}

// Writes the items of a list whose m is the width: the list turned, so its words from the last to the first. Answers their
// number.
#[tactic(auto, using(crate::proofs::Backwards::turned_over))]
pub fn write_by_width(arena: &[u32], head: usize, output: &mut [u32]) -> usize
    requires { (rs : List ℕ) × Listable arena.now head rs output.old }
    ensures { (rs : List ℕ) → Listable arena.now head rs output.old → (result ≡ length rs) × (output.new ≡ written_over (list_words (turn (items (held arena.now head [] rs)))) output.old) }
{
    let count = write_by_height(arena, head, output);
    output[..2 * count].reverse();
    count
}
