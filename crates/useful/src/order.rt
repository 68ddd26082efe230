// The order of a gauge's list as one word: a hexadecimal digit for each size of the list, its number within the gauge.
ghost use Rattle.std.specs.Prelude.{◌≡◌, List, ◌+◌, ◌≤◌, get_or};
ghost use Rattle.slicing.specs.Item.{Item, size};
ghost use Rattle.slicing.specs.Useful.{index_of, gauge_shapes};
ghost use Rattle.sizes.specs.inside.Sizes.{sizes_in};
ghost use Rattle.useful.specs.inside.Order.{GaugeBytes, order_word, counting_word, InOrder};

use crate::narrowest::narrowest_first;
use crate::standing::stand_in_order;

// The word of so many sizes that stand in order: each is on the list.
pub fn in_order(count: usize) -> u32
    requires { (1 ≤ count) × (count ≤ 8) }
    ensures { result ≡ counting_word count }
{
    let behind = 8 - count as u32;
    0x12345678 >> (4 * behind)
}

// The word of a gauge's list.
pub fn order(sizes: &[u8], count: usize) -> u32
    requires { GaugeBytes count sizes.now }
    ensures { result ≡ order_word (sizes_in count sizes.now) }
{
    if stand_in_order(sizes, count) {
        in_order(count)
    } else {
        narrowest_first(sizes, count)
    }
}

// The number within the gauge of the size at a place of its list of `count` items.
pub fn number_at(order: u32, count: usize, place: usize) -> u32
    requires { (s : List Item) × InOrder s order count place }
    ensures { (s : List Item) → InOrder s order count place → result ≡ index_of (get_or (gauge_shapes s) place (size 0 0)) s + 1 }
{
    let behind = (count - 1 - place) as u32;
    (order >> (4 * behind)) % 16
}
