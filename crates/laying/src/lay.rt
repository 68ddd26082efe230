// The layout of a stored part, written gauge by gauge.
ghost use Rattle.std.specs.Prelude.{◌≡◌, cond, not, ◌∷◌, List, ℕ, ◌+◌, ◌/◌, ◌%◌, ◌^◌, ◌≤◌, ◌<◌, length, get_or, drop};
ghost use Rattle.slicing.specs.Item.{Item, size};
ghost use Rattle.slicing.specs.Useful.{index_of, gauge_shapes};
ghost use Rattle.slicing.specs.Tree.{Tree};
ghost use Rattle.slicing.specs.Shapes.{shapes};
ghost use Rattle.packed.specs.inside.Packed.{pack};
ghost use Rattle.stored.specs.inside.Store.{Stored};
ghost use Rattle.laying.specs.inside.Taking.{goes_up};
ghost use Rattle.laying.specs.inside.Laying.{shape_at, GaugePlace, moved_by, Layable, laid};

use crate::take::take_item;
use entries::Kind;
use packed::item::{m_of, p_of};
use stored::fill::stretch;
use stored::table::Part;
use useful::order::number_at;

// The lower left corner of a part.
#[derive(Clone, Copy)]
pub struct Corner {
    pub x: u32,
    pub y: u32,
}

impl Corner {
    // The corner of the right or upper part of a join, where the other's is this one: so far past it.
    fn beyond(self, past: u32, join: Kind) -> Corner
        requires { (moved_by (not (goes_up join)) self.x past < 2 ^ 32) × (moved_by (goes_up join) self.y past < 2 ^ 32) }
        ensures across { result.x ≡ moved_by (not (goes_up join)) self.x past }
        ensures up { result.y ≡ moved_by (goes_up join) self.y past }
    {
        match join {
            Kind::Stacked => Corner {
                x: self.x,
                y: self.y + past,
            },
            _ => Corner {
                x: self.x + past,
                y: self.y,
            },
        }
    }
}

// The item at a place of a part's shape list by height.
pub fn item_at(scratch: &[u32], part: usize, place: usize) -> u32
    requires { (gap : ℕ) × (t : Tree) × Stored gap scratch.now part t × (place < length (shapes gap t)) }
    ensures { (gap : ℕ) (t : Tree) → Stored gap scratch.now part t → place < length (shapes gap t) → result ≡ pack (shape_at gap t place) }
{
    stretch(scratch, part, Kind::Beside).item(scratch, place)
}

// What a join limits: an item's height side by side, its width where it is stacked.
fn along(z: u32, join: Kind) -> u32
    ensures { result ≡ cond (goes_up join) (z % 65536) (z / 65536) }
{
    match join {
        Kind::Stacked => p_of(z),
        _ => m_of(z),
    }
}

// The number within the gauge of the size at a place of its list: the word behind the list has it.
fn size_number(scratch: &[u32], part: usize, place: usize) -> u32
    requires { (gap : ℕ) × (s : List Item) × GaugePlace gap scratch.now part s place }
    ensures { (gap : ℕ) (s : List Item) → GaugePlace gap scratch.now part s place → result ≡ index_of (get_or (gauge_shapes s) place (size 0 0)) s + 1 }
{
    let gauge = Part::read(scratch, part);
    let named = scratch[gauge.from + gauge.count];
    number_at(named, gauge.count, place)
}

// The words of a gauge: the number of its size, across, up, width and height.
fn write_gauge(out: &mut [u32], number: u32, at: Corner, size: u32)
    requires { 5 ≤ length out.old }
    ensures { out.new ≡ number ∷ at.x ∷ at.y ∷ (size % 65536) ∷ (size / 65536) ∷ drop 5 out.old }
{
    // Stored one by one: a copy of an array of the five, or a chunk of five borrowed first, takes more instructions.
    out[0] = number;
    out[1] = at.x;
    out[2] = at.y;
    out[3] = p_of(size);
    out[4] = m_of(size);
}

// Lays a part out with the item at a place of its shape list, from a corner: first the left or lower part, then the
// other, which starts a rib after it, down to the gauges. Each writes its own gauges' words only.
pub fn lay(scratch: &[u32], part: usize, place: usize, rib: u32, at: Corner, out: &mut [u32])
    requires { (t : Tree) × Layable rib scratch.now part t place at.x at.y out.old }
    ensures { (t : Tree) → Layable rib scratch.now part t place at.x at.y out.old → out.new ≡ laid rib t place at.x at.y out.old }
{
    let join = Part::read(scratch, part).kind;
    let z = item_at(scratch, part, place);
    if join == Kind::Gauge {
        write_gauge(out, size_number(scratch, part, place), at, z);
        return;
    }
    let limit = along(z, join);
    let newer = part - 1;
    let rest = Part::read(scratch, newer).gauges;
    let older = part - 2 * rest;
    let first = Part::read(scratch, older).gauges;
    let a = take_item(scratch, older, join, limit);
    let b = take_item(scratch, newer, join, limit);
    let past = a.extent + rib;
    let beyond = at.beyond(past, join);
    lay(scratch, older, a.place, rib, at, out);
    lay(scratch, newer, b.place, rib, beyond, &mut out[5 * first..]);
}
