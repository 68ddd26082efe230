// The search for the records in front of a list that are not below a key.
ghost use Rattle.std.specs.Prelude.{◌≡◌, ℕ, ◌≤◌, true, List};
ghost use Rattle.arena.specs.Arena.{forward};
ghost use Rattle.searching.specs.inside.Cut.{Searchable, LinkCount, CutAt, Reachable, passes};

use arena::words::{ADJUST, FORWARD, M, get};

// Where a list is cut: how many links the records in front have, and for each of them the last record with it in front,
// the head where there is none, and the adjust that this one has of it.
#[derive(Clone, Copy)]
pub struct Cut {
    pub links: usize,
    pub lasts: [usize; 8],
    pub adjusts: [u32; 8],
}

// Whether there is a record, and its m is at least the key. Where there is none, r is 0, and the m of record 0 is less
// than any key.
pub fn may_pass(arena: &[u32], r: usize, key: u32) -> bool
    requires { Reachable arena.now r × (1 ≤ key) }
    ensures { result ≡ passes arena.now r key }
{
    key <= get(arena, r, M)
}

// How many links the records in front have, where one of them has link 1. They are counted from below, since few records
// have many links.
pub fn count_links(arena: &[u32], head: usize, key: u32) -> usize
    requires searchable { ((rs : List ℕ) × Searchable arena.now head rs) × (1 ≤ key) }
    requires key_passes { passes arena.now (forward arena.now head 1) key ≡ true }
    ensures { (rs : List ℕ) → Searchable arena.now head rs → LinkCount arena.now key rs result }
{
    for n in 2..8 {
        let next = get(arena, head, FORWARD + n) as usize;
        if !may_pass(arena, next, key) {
            return n;
        }
    }
    8
}

// Cuts a list below a link; the arena is only read. One loop goes along the records and down the links, since a record is
// passed at many links: a `for` over the links, with the way along each in a function, is slower (tried, an eighth more
// instructions).
pub fn search(arena: &[u32], head: usize, key: u32, links: usize) -> Cut
    requires searchable { ((rs : List ℕ) × Searchable arena.now head rs) × (1 ≤ key) }
    requires links_few { links ≤ 8 }
    ensures links_same { result.links ≡ links }
    ensures cut { (rs : List ℕ) → Searchable arena.now head rs → CutAt arena.now head key links rs result.lasts result.adjusts }
{
    let mut cut = Cut {
        links,
        lasts: [0; 8],
        adjusts: [0; 8],
    };
    let mut cur = head;
    let mut i = links;
    while 0 < i {
        let k = i - 1;
        let next = get(arena, cur, FORWARD + k) as usize;
        if may_pass(arena, next, key) {
            cur = next;
        } else {
            cut.lasts[k] = cur;
            cut.adjusts[k] = get(arena, cur, ADJUST + k);
            i = k;
        }
    }
    cut
}
