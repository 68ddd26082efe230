// The size bytes of one gauge, as a part of the caller's file.
ghost use Rattle.std.specs.Prelude.{◌≡◌, [], IfSome, IfNone};
ghost use Rattle.checks.specs.Answer.{taken};
ghost use Rattle.slicing.specs.Tree.{Tree};
ghost use Rattle.facefile.specs.Format.{face_of};
ghost use Rattle.facefile.specs.Gauge.{gauge_bytes};

use crate::entry::{Entries, Entry};
use crate::reader::counts;

// The size bytes of a gauge of a taken file, the gauges counted from 1; none where there is no such gauge.
fn find_sizes(file: &[u8], gauge: u32) -> Option<&[u8]>
    requires { (t : Tree) × (face_of file.now ≡ taken t) }
    ensures none { IfNone result (gauge_bytes (face_of file.now) gauge ≡ []) }
    ensures some { IfSome result (λ sizes. sizes.now ≡ gauge_bytes (face_of file.now) gauge) }
{
    let mut left = gauge.checked_sub(1)?;
    for entry in Entries::of(file) {
        if let Entry::Gauge(sizes) = entry {
            if left == 0 {
                return Some(sizes);
            }
            left -= 1;
        }
    }
    None
}

// The heights and widths of a gauge, counted from 1, four bytes a size; nothing where the file is refused or has no
// such gauge.
pub fn gauge_bytes(file: &[u8], gauge: u32) -> &[u8]
    ensures { result.now ≡ gauge_bytes (face_of file.now) gauge }
{
    if counts(file).is_err() {
        return &file[..0];
    }
    find_sizes(file, gauge).unwrap_or(&file[..0])
}
