// A stored list, read as it runs or turned.
ghost use Rattle.std.specs.Prelude.{◌≡◌, List, true, false, ◌+◌, ◌-◌, ◌*◌, ◌/◌, ◌%◌, ◌^◌, ◌<◌, ◌≤◌, length, get_or};
ghost use Rattle.slicing.specs.Item.{Item, size};
ghost use Rattle.packed.specs.inside.Packed.{pack, facing, HasList};
ghost use Rattle.packed.specs.inside.Joining.{Within, AtItem};

use crate::item::swapped;

// Where a stored list starts, how many items it has, and whether it is read turned.
#[derive(Clone, Copy)]
pub struct Stretch {
    pub from: usize,
    pub count: usize,
    pub across: bool,
}

impl Stretch {
    // Item k of the list, read as the stretch says.
    pub fn item(self, scratch: &[u32], k: usize) -> u32
        requires { (l : List Item) × HasList scratch.now self.from l × (self.count ≡ length l) × (k < self.count) }
        ensures { (l : List Item) → HasList scratch.now self.from l → self.count ≡ length l → result ≡ pack (get_or (facing self.across l) k (size 0 0)) }
    {
        if self.across {
            swapped(scratch[self.from + (self.count - 1 - k)])
        } else {
            scratch[self.from + k]
        }
    }

    // The place of the first item: of the last in the scratch, where the list is read turned.
    pub(crate) fn first(self) -> usize
        requires { Within self }
        ensures { AtItem self 0 result }
    {
        if self.across {
            self.from + self.count - 1
        } else {
            self.from
        }
    }

    // The place after the last item: before the first in the scratch, where the list is read turned.
    pub(crate) fn end(self) -> usize
        requires { Within self }
        ensures { AtItem self self.count result }
    {
        if self.across {
            self.from - 1
        } else {
            self.from + self.count
        }
    }

    // The place after a place: up, or down where the list is read turned.
    pub(crate) fn after(self, at: usize) -> usize
        requires { (1 ≤ at) × (at + 1 < 2 ^ 64) }
        ensures along { self.across ≡ false → result ≡ at + 1 }
        ensures turned { self.across ≡ true → result ≡ at - 1 }
    {
        if self.across { at - 1 } else { at + 1 }
    }

    // The word of the item at a place, its halves swapped where the list is read turned.
    pub(crate) fn read(self, scratch: &[u32], at: usize) -> u32
        requires { at < length scratch.now }
        ensures along { self.across ≡ false → result ≡ get_or scratch.now at 0 }
        ensures turned { self.across ≡ true → result ≡ 65536 * (get_or scratch.now at 0 % 65536) + get_or scratch.now at 0 / 65536 }
    {
        if self.across {
            swapped(scratch[at])
        } else {
            scratch[at]
        }
    }
}
