// The reading calls: the items of the list that an arena holds, and then the one at a place from either end.
ghost use Rattle.std.specs.Prelude.{◌≡◌};
ghost use Rattle.maxplus.specs.Read.{read_item, read_low, reading};
ghost use Rattle.maxplus.specs.inside.Place.{answered, read_from};

use crate::Reading;
use checks::Check;
use checks::limits::SIZES;
use holding::items::{Item, items_of};

// The end of a list from which its places are counted.
#[derive(Clone, Copy)]
enum End {
    Top,
    Low,
}

// The item at a place of the list that the arena holds, counted from 1 at an end of it: checks 17, 20 and 21 on any arena
// and any place.
fn item_at(arena: &[u32], end: End, place: u32) -> Result<Item, Check>
    ensures { answered result ≡ read_from end arena.now place }
{
    // Two rows of words clear slower: 56 ns, where this row takes 37, though callgrind counts 262 there and here 4,096.
    let mut items = [Item::default(); SIZES];
    let count = items_of(arena, &mut items)?;
    let place = place as usize;
    if !(1..=count).contains(&place) {
        return Err(Check::Place);
    }
    match end {
        End::Top => Ok(items[place - 1]),
        End::Low => Ok(items[count - place]),
    }
}

// m and true p of the item at a place of the list that the arena holds, counted from 1 at its top: checks 17, 20 and 21 on
// any arena and any place.
pub fn read(arena: &[u32], place: u32) -> Reading
    ensures { result ≡ reading (read_item arena.now place) }
{
    Reading::from(item_at(arena, End::Top, place))
}

// The same from the low end, where m is least: place 1 is the end of the walk.
pub fn read_low(arena: &[u32], place: u32) -> Reading
    ensures { result ≡ reading (read_low arena.now place) }
{
    Reading::from(item_at(arena, End::Low, place))
}
