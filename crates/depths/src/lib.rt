// How deep the gauges of a taken file stand in its tree.
#![tactic(auto)]

ghost use Rattle.std.specs.Prelude.{◌≡◌};
ghost use Rattle.checks.specs.Answer.{taken};
ghost use Rattle.slicing.specs.Tree.{Tree};
ghost use Rattle.facefile.specs.Format.{face_of};
ghost use Rattle.depths.specs.inside.Deep.{Deep};

use facefile::entry::{Entries, Entry};

// The smallest and the largest number of joins above a gauge.
#[derive(Clone, Copy, PartialEq, Eq)]
pub struct Depths {
    pub least: u8,
    pub most: u8,
}

impl Depths {
    ghost use Rattle.std.specs.Prelude.{◌≡◌};
    ghost use Rattle.depths.specs.inside.Deep.{Shallow, above};

    // Of a gauge alone, which has no join above it.
    const GAUGE: Depths = Depths { least: 0, most: 0 };

    // Of a join of two parts, which stands above all gauges of both.
    fn under_join(older: Depths, newer: Depths) -> Depths
        requires { Shallow older × Shallow newer }
        ensures { result ≡ above older newer }
    {
        Depths {
            least: 1 + older.least.min(newer.least),
            most: 1 + older.most.max(newer.most),
        }
    }
}

// The depths of the whole tree, from those of the parts on a stack like the reader's.
pub fn depths_of(file: &[u8]) -> Depths
    requires { (t : Tree) × (face_of file.now ≡ taken t) }
    ensures { Deep file.now result }
{
    let mut stack = [Depths::GAUGE; 64];
    let mut parts = 0;
    for entry in Entries::of(file) {
        match entry {
            Entry::Gauge(_) => {
                stack[parts] = Depths::GAUGE;
                parts += 1;
            }
            Entry::Join(_) => {
                parts -= 1;
                stack[parts - 1] = Depths::under_join(stack[parts - 1], stack[parts]);
            }
        }
    }
    stack[0]
}
