// The entries, read from a cursor. Each function does what the definition of the same entry says, from any state that
// the cursor stands for.
ghost use Rattle.std.specs.Prelude.{◌≡◌, List, ℕ, ◌≤◌, length};
ghost use Rattle.slicing.specs.Tree.{beside, stacked};
ghost use Rattle.entries.specs.Entry.{join_entry, entry, entries};
ghost use Rattle.entries.specs.inside.Tracking.{Fair, Follows, Does, begun, unit_at};

use crate::gauge::read_gauge;
use crate::{Cursor, Kind, Units};
use checks::Check;

// The unit at the cursor, if it is present (check 5), and the cursor after it.
pub fn read_unit<U: Units + Copy>(units: U, c: Cursor) -> Result<(u32, Cursor), Check>
    ensures { result ≡ unit_at (U.numbers units) c }
{
    if units.len() <= c.at {
        return Err(Check::Present);
    }
    Ok((units.unit(c.at), Cursor { at: c.at + 1, ..c }))
}

// A join, after its kind. It hangs on the number of parts alone.
fn read_join(c: Cursor) -> Result<Cursor, Check>
    ensures as_beside { (l : List ℕ) → Fair l c → Does (join_entry beside) l c result }
    ensures as_stacked { (l : List ℕ) → Fair l c → Does (join_entry stacked) l c result }
{
    if c.parts < 2 {
        return Err(Check::Join);
    }
    Ok(Cursor {
        parts: c.parts - 1,
        ..c
    })
}

// A whole entry.
fn read_entry<U: Units + Copy>(units: U, c: Cursor) -> Result<Cursor, Check>
    requires { Fair (U.numbers units) c }
    ensures { Does (entry (U.rules units)) (U.numbers units) c result }
{
    let (kind, after) = read_unit(units, c)?;
    match Kind::try_from(kind)? {
        Kind::Gauge => read_gauge(units, after),
        Kind::Beside | Kind::Stacked => read_join(after),
    }
}

// So many entries from a place on, taken in turn.
pub fn read_entries<U: Units + Copy>(units: U, from: usize, count: usize) -> Result<Cursor, Check>
    requires { from ≤ length (U.numbers units) }
    ensures { Follows (U.numbers units) (entries (U.rules units) count (begun (U.numbers units) from)) result }
{
    let mut c = Cursor {
        at: from,
        parts: 0,
        gauges: 0,
        sizes: 0,
    };
    for _ in 0..count {
        c = read_entry(units, c)?;
    }
    Ok(c)
}
