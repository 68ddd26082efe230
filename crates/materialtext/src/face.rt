// The text that `material` prints for a file, from its bytes.
ghost use Rattle.std.specs.Prelude.{◌≤◌, length};
ghost use Rattle.text.specs.Printing.{Counted};
ghost use Rattle.facefile.specs.Format.{face_of};
ghost use Rattle.report.specs.inside.Telling.{Told};
ghost use Rattle.materialtext.specs.Material.{material_bytes, material_printed, MaterialText};
ghost use Rattle.materialtext.specs.inside.Telling.{Gauged};

use crate::TEXT;
use checks::Check;
use checks::limits::WORDS;
use facefile::reader::counts;
use materialsheet::print_face;
use rendering::render::render_refused;
use report::{RIB, WIDEST};

// The text of a taken face of so many gauges, or the check that refuses it. The scratch lies here, so that it need not be on
// the stack where the file is refused.
fn sheet_text(file: &[u8], gauges: usize, text: &mut [u8]) -> Result<usize, Check>
    requires gauged { Gauged file.now gauges }
    requires text_long { material_bytes ≤ length text.old }
    ensures { Told material_bytes (material_printed (face_of file.now)) text.old result text.new }
{
    let mut scratch = [0u32; WORDS];
    let length = print_face(file, gauges, RIB, WIDEST, &mut scratch, text)?;
    Ok(length as usize)
}

// The text of the face that a file means, or the check that refuses it.
fn told(file: &[u8], text: &mut [u8]) -> Result<usize, Check>
    requires { material_bytes ≤ length text.old }
    ensures { Told material_bytes (material_printed (face_of file.now)) text.old result text.new }
{
    let counted = counts(file)?;
    sheet_text(file, counted.gauges, text)
}

// The text that `material` prints for a file of these bytes, in a buffer with room for every text. Answers its length; 0,
// with the buffer as it was, where there is less room.
pub fn material_text(file: &[u8], text: &mut [u8]) -> usize
    ensures material_text { MaterialText (face_of file.now) text.old text.new result }
    ensures counted { Counted material_bytes text.new result }
{
    if text.len() < TEXT {
        return 0;
    }
    // `report::faces_text` has this test and this `match` too: a function for both would take `told` as a closure, and its
    // contract would be longer than they are.
    match told(file, text) {
        Ok(length) => length,
        Err(check) => render_refused(check.number(), text),
    }
}
