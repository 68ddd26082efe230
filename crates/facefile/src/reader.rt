// The whole file: checks 1 to 13.
ghost use Rattle.std.specs.Prelude.{◌≡◌, List, ℕ, length};
ghost use Rattle.facefile.specs.Format.{header, face_of};
ghost use Rattle.facefile.specs.Summary.{counted, answered, summary};
ghost use Rattle.entries.specs.inside.Tracking.{Fair};
ghost use Rattle.facefile.specs.inside.Ending.{Ends};

use crate::bytes::Bytes;
use crate::entry::FIRST_ENTRY;
use crate::{Counts, Face};
use checks::Check;
use entries::Cursor;
use entries::entry::read_entries;
use sizes::field::field;
use sizes::is_within;

// The first seven bytes, checks 1 to 4: the number of entries.
fn header(file: &[u8]) -> Result<u32, Check>
    ensures { result ≡ header file.now }
{
    if file.len() < 7 {
        return Err(Check::Length);
    }
    if !file.starts_with(b"FCE") {
        return Err(Check::Mark);
    }
    if !is_within(1, 2, field(file, 3)) {
        return Err(Check::Version);
    }
    let entries = field(file, 5);
    if !is_within(1, 127, entries) {
        return Err(Check::Entries);
    }
    Ok(entries)
}

// After the last entry, of so many bytes or words in all: checks 12 and 13.
pub fn read_end(total: usize, c: Cursor) -> Result<Counts, Check>
    ensures { (l : List ℕ) → length l ≡ total → Fair l c → Ends l c result }
{
    if c.parts != 1 {
        return Err(Check::OnePart);
    }
    if c.at != total {
        return Err(Check::AtEnd);
    }
    Ok(Counts {
        gauges: c.gauges,
        sizes: c.sizes,
    })
}

// Checks 1 to 13 on any bytes: the first that fails, or what is counted.
pub fn counts(file: &[u8]) -> Result<Counts, Check>
    ensures { result ≡ counted (face_of file.now) }
{
    let count = header(file)?;
    let bytes = Bytes {
        bytes: file,
        version: field(file, 3),
    };
    let end = read_entries(bytes, FIRST_ENTRY, count as usize)?;
    read_end(file.len(), end)
}

// The same as a number with the counts beside it.
impl From<Result<Counts, Check>> for Face {
    ghost from_gives = { λ r f. f ≡ answered r };

    fn from(read: Result<Counts, Check>) -> Face {
        match read {
            Ok(counts) => Face {
                number: 0,
                gauges: counts.gauges,
                sizes: counts.sizes,
            },
            Err(check) => Face {
                number: check.number(),
                gauges: 0,
                sizes: 0,
            },
        }
    }
}

// Checks 1 to 13 on any bytes.
pub fn read(file: &[u8]) -> Face
    ensures { result ≡ summary (face_of file.now) }
{
    Face::from(counts(file))
}
