// The item that a side of a join takes of its stored list.
ghost use Rattle.std.specs.Prelude.{◌≡◌, List, ℕ};
ghost use Rattle.slicing.specs.Item.{Item};
ghost use Rattle.slicing.specs.Tree.{Tree};
ghost use Rattle.packed.specs.inside.Packed.{facing};
ghost use Rattle.laying.specs.inside.Taking.{Searchable, FirstLow, goes_up, Takable, Takes};

use entries::Kind;
use packed::item::{m_of, p_of};
use packed::stretch::Stretch;
use stored::fill::stretch;

// The place of an item in a part's shape list by height, and its length along the join.
#[derive(Clone, Copy)]
pub struct Taken {
    pub place: usize,
    pub extent: u32,
}

// The place of the first item whose m is at most the limit. There is such an item. The list may be read turned, so it is
// no slice that `partition_point` could search.
fn first_no_larger(scratch: &[u32], list: Stretch, limit: u32) -> usize
    requires { (l : List Item) × Searchable scratch.now list limit l }
    ensures { (l : List Item) → Searchable scratch.now list limit l → FirstLow limit (facing list.across l) result }
{
    let mut low = 0;
    let mut high = list.count - 1;
    while low < high {
        let mid = low + (high - low) / 2;
        let m = m_of(list.item(scratch, mid));
        if m <= limit {
            high = mid;
        } else {
            low = mid + 1;
        }
    }
    low
}

// The item that a part takes at a join: the first of its list by height, or by width where the join is stacked, of at
// most the limit.
pub fn take_item(scratch: &[u32], part: usize, join: Kind, limit: u32) -> Taken
    requires { (gap : ℕ) × (t : Tree) × Takable gap scratch.now part (goes_up join) limit t }
    ensures { (gap : ℕ) (t : Tree) → Takable gap scratch.now part (goes_up join) limit t → Takes gap (goes_up join) limit t result.place result.extent }
{
    let list = stretch(scratch, part, join);
    let k = first_no_larger(scratch, list, limit);
    let extent = p_of(list.item(scratch, k));
    match join {
        Kind::Stacked => Taken {
            place: list.count - 1 - k,
            extent,
        },
        _ => Taken { place: k, extent },
    }
}
