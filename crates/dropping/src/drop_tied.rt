// The leaving of a list's first record where the result has ended at its m.
ghost use Rattle.dropping.specs.inside.Dropping.{Tied, DroppedTied};

use crate::drop_first::drop_first;
use arena::sums::pass;
use arena::words::{M, get};

// Takes the first record, which is r, off a list where the record `last` has m equal to the key. The sums of the head are
// then those that r left.
pub fn drop_tied(arena: &mut [u32], head: usize, r: usize, last: usize, key: u32, sums: &mut [u32])
    requires { Tied arena.old head r last sums.old }
    ensures { DroppedTied arena.old arena.new head r last key sums.old sums.new }
{
    if get(arena, last, M) == key {
        pass(arena, r, sums);
        drop_first(arena, head);
    }
}
