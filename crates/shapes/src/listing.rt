// The list call.
ghost use Rattle.std.specs.Prelude.{◌≡◌, ◌≤◌};
ghost use Rattle.checks.specs.Limits.{most_sizes};
ghost use Rattle.facefile.specs.Format.{face_of};
ghost use Rattle.lent.specs.Lent.{lent};
ghost use Rattle.shapes.specs.Listing.{list_asks, ListPromise};
ghost use Rattle.shapes.specs.inside.Taken.{Writable, Wrote, listed_as};

use crate::Listed;
use checks::Check;
use checks::limits::WORDS;
use entries::Kind;
use facefile::{Counts, reader};
use parts::build::build;
use writing::write::{write_by_height, write_by_width};

// Checks 14, 15, 22, 17 and 18, of the levels, the rib and the lengths of the lent buffers.
#[tactic(auto, unfolding(crate::specs::Listing::list_asks))]
fn asked(
    counts: Counts,
    levels: &[u8],
    rib: u32,
    arena: usize,
    scratch: usize,
    output: usize,
) -> Result<(), Check>
    requires { (counts.gauges ≤ counts.sizes) × (counts.sizes ≤ most_sizes) }
    ensures { result ≡ list_asks counts.sizes counts.gauges levels.now rib arena scratch output }
{
    lent::levels(counts.sizes, levels)?;
    lent::rib(rib)?;
    lent::buffers(WORDS, arena, scratch)?;
    lent::output(2 * (counts.sizes - counts.gauges + 1), output)
}

// The list of a face that is taken, with a rib at each join, in the arena and in the output. Answers the item count. It is
// for callers that have made the checks of the list call.
pub fn write_list(
    file: &[u8],
    levels: &[u8],
    rib: u32,
    arena: &mut [u32],
    output: &mut [u32],
) -> u32
    requires { Writable file.now levels.now rib arena.old output.old }
    ensures { Wrote file.now levels.now rib output.old arena.new output.new result }
{
    let kind = build(file, levels, rib, arena);
    match kind {
        Kind::Stacked => write_by_width(arena, 0, output) as u32,
        _ => write_by_height(arena, 0, output) as u32,
    }
}

// The checks of the list call, then the list. Answers the item count.
fn listed(
    file: &[u8],
    levels: &[u8],
    rib: u32,
    arena: &mut [u32],
    scratch: &mut [u32],
    output: &mut [u32],
) -> Result<u32, Check>
    ensures { ListPromise (face_of file.now) levels.now rib (lent arena.old scratch.old output.old) (listed_as result) (lent arena.new scratch.new output.new) }
{
    let counts = reader::counts(file)?;
    asked(
        counts,
        levels,
        rib,
        arena.len(),
        scratch.len(),
        output.len(),
    )?;
    Ok(write_list(file, levels, rib, arena, output))
}

// Checks 1 to 18 but 16, with 22 right after 15, then the outer sizes of the face, with a rib between the parts of each
// join, in the output and in the arena. A refusal leaves every lent buffer as it was.
pub fn list(
    file: &[u8],
    levels: &[u8],
    rib: u32,
    arena: &mut [u32],
    scratch: &mut [u32],
    output: &mut [u32],
) -> Listed
    ensures { ListPromise (face_of file.now) levels.now rib (lent arena.old scratch.old output.old) result (lent arena.new scratch.new output.new) }
{
    match listed(file, levels, rib, arena, scratch, output) {
        Ok(count) => Listed { number: 0, count },
        Err(check) => Listed {
            number: check.number(),
            count: 0,
        },
    }
}
