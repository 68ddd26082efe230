// Whether the sizes of a gauge stand in order.
ghost use Rattle.std.specs.Prelude.{◌≡◌, true};
ghost use Rattle.slicing.specs.Good.{Ordered};
ghost use Rattle.sizes.specs.inside.Sizes.{sizes_in};
ghost use Rattle.useful.specs.inside.Order.{GaugeBytes};

use sizes::size_in;

// Whether each size is less high and wider than the size before it.
pub fn stand_in_order(sizes: &[u8], count: usize) -> bool
    requires { GaugeBytes count sizes.now }
    ensures { result ≡ true → Ordered (sizes_in count sizes.now) }
{
    // The size before is kept: a test of `all` over the places reads both sizes, and the list call takes 1% more.
    let mut before = size_in(sizes, 0);
    for k in 1..count {
        let z = size_in(sizes, k);
        if before.height <= z.height || z.width <= before.width {
            return false;
        }
        before = z;
    }
    true
}
