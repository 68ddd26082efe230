// The list of a gauge whose sizes stand in any order: the narrowest of all sizes, then the narrowest of those that are
// lower than it, and so on.
ghost use Rattle.std.specs.Prelude.{◌≡◌};
ghost use Rattle.slicing.specs.Item.{size};
ghost use Rattle.sizes.specs.inside.Sizes.{sizes_in};
ghost use Rattle.useful.specs.inside.Order.{GaugeBytes, order_word};
ghost use Rattle.useful.specs.inside.Narrowest.{narrower, NextBelow};

use sizes::{Size, size_in};

// Above every height and width of two bytes.
const ABOVE: u32 = 65536;

// Whether z is narrower than the other size, or as wide and lower. As pairs of width and height the two compare slower.
fn is_narrower(z: Size, than: Size) -> bool
    ensures { result ≡ narrower (size z.height z.width) (size than.height than.width) }
{
    z.width < than.width || (z.width == than.width && z.height < than.height)
}

// The narrowest size that is lower than a height, with its place, of equal width the lowest, of equal pairs the first.
fn narrowest_below(sizes: &[u8], count: usize, height: u32) -> Option<(usize, Size)>
    requires { GaugeBytes count sizes.now }
    ensures { NextBelow (sizes_in count sizes.now) height result }
{
    // It begins wider than every size, so that the first that is lower is taken; kept as an `Option`, it costs the list
    // call of mixed-64-shuffled 264,688 instructions in place of 256,179.
    let mut best = Size {
        height: ABOVE,
        width: ABOVE,
    };
    let mut place = 0;
    for k in 0..count {
        let z = size_in(sizes, k);
        if z.height < height && is_narrower(z, best) {
            best = z;
            place = k;
        }
    }
    if best.width < ABOVE {
        Some((place, best))
    } else {
        None
    }
}

// The word of a gauge's list, digit by digit from the highest size of the list to the lowest.
pub fn narrowest_first(sizes: &[u8], count: usize) -> u32
    requires { GaugeBytes count sizes.now }
    ensures { result ≡ order_word (sizes_in count sizes.now) }
{
    let mut word = 0;
    let mut height = ABOVE;
    while let Some((k, z)) = narrowest_below(sizes, count, height) {
        word = 16 * word + (k as u32 + 1);
        height = z.height;
    }
    word
}
