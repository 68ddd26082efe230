// The heads of the lists of parts.
ghost use Rattle.arena.specs.inside.Chain.{Has};
ghost use Rattle.parts.specs.inside.Copying.{Copied};

use arena::STRIDE;
use arena::words::{get, store};

// The head of the first part on the stack: the first record that is no size's. The next part's is the record after it.
pub const FIRST: usize = checks::limits::SIZES + 1;

// Copies a head, and with it its list, to another record.
pub fn copy_head(arena: &mut [u32], from: usize, to: usize)
    requires { Has arena.old from × Has arena.old to }
    ensures { Copied arena.old from to arena.new }
{
    for j in 0..STRIDE {
        let v = get(arena, from, j);
        store(arena, to, j, v);
    }
}
