// The area of all gauges.
ghost use Rattle.std.specs.Prelude.{◌≡◌, List};
ghost use Rattle.slicing.specs.Item.{Item};
ghost use Rattle.covering.specs.Covered.{total};
ghost use Rattle.materiallines.specs.inside.Listing.{Sized, Holds};

// The sum of the areas of the gauges, five words each.
pub fn total_area(layout: &[u32]) -> u32
    requires { Sized layout.now }
    ensures { (sizes : List Item) → Holds layout.now sizes → result ≡ total sizes }
{
    let mut used = 0;
    for words in layout.chunks_exact(5) {
        used += words[4] * words[3];
    }
    used
}
