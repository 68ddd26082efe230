// The catalogue call.
ghost use Rattle.std.specs.Prelude.{◌≡◌};
ghost use Rattle.facefile.specs.Format.{face_of};
ghost use Rattle.lent.specs.Lent.{lent};
ghost use Rattle.catalogue.specs.Catalogue.{width_asks, WidthPromise};
ghost use Rattle.catalogue.specs.inside.Taken.{catalogued_as};

use crate::Catalogued;
use crate::heights::heights_given;
use checks::Check;
use checks::limits::WORDS;
use facefile::reader;
use shapes::write_list;
use walking::walk::walk;

// Checks 14, 15, 22, 17, 23 and 18, of the levels, the rib, the heights and the lengths of the lent buffers, for a face of so
// many sizes.
#[tactic(auto, unfolding(crate::specs::Catalogue::width_asks))]
fn asked(
    sizes: usize,
    levels: &[u8],
    rib: u32,
    heights: &[u32],
    arena: usize,
    scratch: usize,
    output: usize,
) -> Result<(), Check>
    ensures { result ≡ width_asks sizes levels.now rib heights.now arena scratch output }
{
    lent::levels(sizes, levels)?;
    lent::rib(rib)?;
    lent::buffers(WORDS, arena, scratch)?;
    heights_given(heights)?;
    lent::output(heights.len(), output)
}

// The checks of the catalogue call, then the face's list and the walk over it. Answers how many looks it took.
fn catalogued(
    file: &[u8],
    levels: &[u8],
    rib: u32,
    heights: &[u32],
    arena: &mut [u32],
    scratch: &mut [u32],
    output: &mut [u32],
) -> Result<u32, Check>
    ensures { WidthPromise (face_of file.now) levels.now rib heights.now (lent arena.old scratch.old output.old) (catalogued_as result) (lent arena.new scratch.new output.new) }
{
    let counts = reader::counts(file)?;
    asked(
        counts.sizes,
        levels,
        rib,
        heights,
        arena.len(),
        scratch.len(),
        output.len(),
    )?;
    let items = write_list(file, levels, rib, arena, scratch);
    Ok(walk(scratch, items as usize, heights, output) as u32)
}

// Checks 1 to 15, 22, 17, 23 and 18, then for each height the least width of a face no taller, 0 where there is none, from the
// output's start, and the face's list in the arena. A refusal leaves every lent buffer as it was.
pub fn widths(
    file: &[u8],
    levels: &[u8],
    rib: u32,
    heights: &[u32],
    arena: &mut [u32],
    scratch: &mut [u32],
    output: &mut [u32],
) -> Catalogued
    ensures { WidthPromise (face_of file.now) levels.now rib heights.now (lent arena.old scratch.old output.old) result (lent arena.new scratch.new output.new) }
{
    match catalogued(file, levels, rib, heights, arena, scratch, output) {
        Ok(looks) => Catalogued { number: 0, looks },
        Err(check) => Catalogued {
            number: check.number(),
            looks: 0,
        },
    }
}
