// The sizes of a gauge entry, after its number of sizes.
ghost use Rattle.std.specs.Prelude.{◌<◌};
ghost use Rattle.entries.specs.Entry.{gauge_sizes};
ghost use Rattle.entries.specs.inside.Tracking.{Fair, Does};

use crate::{Cursor, Units};
use checks::Check;
use sizes::is_within;

// A gauge's sizes, of which there are said to be `count`: checks 7, 5, 8 and 9.
pub fn read_sizes<U: Units + Copy>(units: U, c: Cursor, count: u32) -> Result<Cursor, Check>
    requires { Fair (U.numbers units) c × (c.gauges < 64) }
    ensures { Does (gauge_sizes (U.rules units) count) (U.numbers units) c result }
{
    if !is_within(1, 8, count) {
        return Err(Check::SizeCount);
    }
    let n = count as usize;
    let length = units.step() * n;
    if units.len() - c.at < length {
        return Err(Check::Present);
    }
    units.ask_sizes(c.at, n)?;
    Ok(Cursor {
        at: c.at + length,
        parts: c.parts + 1,
        gauges: c.gauges + 1,
        sizes: c.sizes + n,
    })
}
