// The merge of two stored lists, written after them.
ghost use Rattle.std.specs.Prelude.{List};
ghost use Rattle.slicing.specs.Item.{Item};
ghost use Rattle.packed.specs.inside.Joining.{Joinable, Joined};

use crate::item::{m_of, p_of};
use crate::stretch::Stretch;

// Merges the lists of two stretches, each read as its stretch says, and writes the merge's items from the place `to`
// on. Answers how many it wrote. The first item left of each list is held in x and y, and read once; y has the rib in its
// p. An item of the merge is the one of larger m with the other's p added.
pub fn merge_lists(scratch: &mut [u32], a: Stretch, b: Stretch, rib: u32, to: usize) -> usize
    requires { (l : List Item) × (k : List Item) × Joinable rib scratch.old a b to l k }
    ensures { (l k : List Item) → Joinable rib scratch.old a b to l k → Joined rib scratch.old a b to l k scratch.new result }
{
    let mut i = a.first();
    let mut j = b.first();
    let end = a.end();
    let stop = b.end();
    let mut x = a.read(scratch, i);
    let mut y = b.read(scratch, j) + rib;
    let mut at = to;
    // No `while` says when the merge ends: it does where either list does, in three places, each before a read past it.
    loop {
        let m = m_of(x);
        let n = m_of(y);
        if m < n {
            scratch[at] = y + p_of(x);
            at += 1;
            j = b.after(j);
            if j == stop {
                return at - to;
            }
            y = b.read(scratch, j) + rib;
        } else {
            scratch[at] = x + p_of(y);
            at += 1;
            i = a.after(i);
            if i == end {
                return at - to;
            }
            x = a.read(scratch, i);
            if m == n {
                j = b.after(j);
                if j == stop {
                    return at - to;
                }
                y = b.read(scratch, j) + rib;
            }
        }
    }
}
