// The sheet of a taken file's smallest face in an opening.
ghost use Rattle.slicing.specs.Layout.{outline};
ghost use Rattle.materialsheet.specs.Sheet.{printed_as};
ghost use Rattle.materialsheet.specs.inside.Printing.{Printable, PrintedIn};

use checks::Check;
use materiallines::write_sheet;
use placing::place_face;
use sizes::Size;

// The sheet of the smallest face of a taken file in an opening, with a rib at each join, from the output's start, answered
// with its length; 19 where none is inside, with the output as it was. No list is built in an arena. It is for callers
// that have made the checks of the sheet call.
pub fn print_face(
    file: &[u8],
    gauges: usize,
    rib: u32,
    opening: Size,
    scratch: &mut [u32],
    output: &mut [u8],
) -> Result<u32, Check>
    requires { Printable file.now gauges rib scratch.old output.old }
    ensures { PrintedIn file.now rib (outline opening.height opening.width) (printed_as result) output.old output.new }
{
    // Five words for each of at most 64 gauges.
    let mut layout = [0u32; 320];
    let face = place_face(file, rib, opening, scratch, &mut layout)?;
    let words = 5 * gauges;
    let length = write_sheet(&layout[..words], face.area, output);
    Ok(length as u32)
}
