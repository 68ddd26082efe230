// A list made of a gauge's sizes.
ghost use Rattle.std.specs.Prelude.{◌≡◌, ◌≤◌, ◌<◌, length};
ghost use Rattle.sizes.specs.inside.Sizes.{sizes_in};
ghost use Rattle.building.specs.inside.Building.{Hookable};
ghost use Rattle.loading.specs.inside.Loading.{Placed, Loadable, Loaded};

use arena::words::{BACK, FORWARD, LEVEL, M, P, store};
use building::empty::clear_head;
use building::prepend::prepend;
use sizes::{Size, size_in};

// Fills record r with its level and a size, m the height and p the width, and puts it before the list of a head, whose
// first record so far is `last`.
fn load_record(arena: &mut [u32], head: usize, r: usize, last: u32, level: u32, size: Size)
    requires { Hookable arena.old head r × (1 ≤ level) × (level ≤ 8) }
    ensures { Placed arena.old head r last level size.height size.width arena.new }
{
    store(arena, r, LEVEL, level);
    store(arena, r, M, size.height);
    store(arena, r, P, size.width);
    store(arena, r, FORWARD, last);
    prepend(arena, head, r);
}

// Makes the list of a head of the useful sizes, four bytes a size. The digits of `order`
// name them, and each has its level and the record of its number from `first` on. The head's first forward is kept beside
// the arena and stored at the end. The list grows at its top: each new record is the back word of the one after it, and
// the first of all, which will be the last item, that of the head.
pub fn load(arena: &mut [u32], head: usize, first: usize, sizes: &[u8], levels: &[u8], order: u32)
    requires { Loadable arena.old head first sizes.now levels.now order }
    ensures { Loaded arena.old head first (sizes_in (length levels.now) sizes.now) levels.now arena.new }
{
    clear_head(arena, head);
    let mut last = 0;
    let mut after = head;
    let mut left = order;
    while 0 < left {
        let k = (left % 16) as usize - 1;
        let level = u32::from(levels[k]);
        let size = size_in(sizes, k);
        let r = first + k;
        load_record(arena, head, r, last, level, size);
        last = r as u32;
        store(arena, after, BACK, last);
        after = r;
        left /= 16;
    }
    store(arena, head, FORWARD, last);
    store(arena, after, BACK, 0);
}
