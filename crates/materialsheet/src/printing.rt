// The sheet call.
ghost use Rattle.slicing.specs.Layout.{outline};
ghost use Rattle.facefile.specs.Format.{face_of};
ghost use Rattle.lent.specs.Lent.{lent};
ghost use Rattle.materialsheet.specs.Sheet.{printed_as};
ghost use Rattle.materialsheet.specs.Promise.{SheetPromise};

use crate::Printed;
use crate::face::print_face;
use checks::Check;
use facefile::reader;
use fit::{Lengths, asked};
use parts::build::build;
use sizes::Size;

// The sheet call, answered with the length of the text or with the check that fails.
fn printed(
    file: &[u8],
    levels: &[u8],
    rib: u32,
    opening: Size,
    arena: &mut [u32],
    scratch: &mut [u32],
    output: &mut [u8],
) -> Result<u32, Check>
    ensures { SheetPromise (face_of file.now) levels.now rib (outline opening.height opening.width) (lent arena.old scratch.old output.old) (printed_as result) (lent arena.new scratch.new output.new) }
{
    let counts = reader::counts(file)?;
    let lengths = Lengths {
        arena: arena.len(),
        scratch: scratch.len(),
        output: output.len(),
    };
    let room = 64 + 32 * counts.gauges;
    asked(counts.sizes, room, levels, rib, opening, lengths)?;
    build(file, levels, rib, arena);
    print_face(file, counts.gauges, rib, opening, scratch, output)
}

// Checks 1 to 18, with 22 right after 15, then the material sheet of the smallest face inside the opening with a rib between
// the parts of each join, in the output, and its list in the arena; 19 where none is inside, with the output as it was.
// Every other refusal leaves every lent buffer as it was.
pub fn sheet(
    file: &[u8],
    levels: &[u8],
    rib: u32,
    height: u32,
    width: u32,
    arena: &mut [u32],
    scratch: &mut [u32],
    output: &mut [u8],
) -> Printed
    ensures { SheetPromise (face_of file.now) levels.now rib (outline height width) (lent arena.old scratch.old output.old) result (lent arena.new scratch.new output.new) }
{
    printed(
        file,
        levels,
        rib,
        Size { height, width },
        arena,
        scratch,
        output,
    )
    .into()
}
