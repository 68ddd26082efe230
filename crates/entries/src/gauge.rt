// A gauge entry, after its kind.
ghost use Rattle.entries.specs.Entry.{gauge_entry};
ghost use Rattle.entries.specs.inside.Tracking.{Fair, Does};

use crate::entry::read_unit;
use crate::gauge_sizes::read_sizes;
use crate::{Cursor, Units};
use checks::Check;

// Checks 10 and 5, and then the sizes.
pub fn read_gauge<U: Units + Copy>(units: U, c: Cursor) -> Result<Cursor, Check>
    requires { Fair (U.numbers units) c }
    ensures { Does (gauge_entry (U.rules units)) (U.numbers units) c result }
{
    if 64 <= c.gauges {
        return Err(Check::Gauges);
    }
    let (count, after) = read_unit(units, c)?;
    read_sizes(units, after, count)
}
