// The text that `faces` prints for a file, from its bytes.
ghost use Rattle.std.specs.Prelude.{◌≤◌, length};
ghost use Rattle.text.specs.Printing.{Counted};
ghost use Rattle.facefile.specs.Format.{face_of};
ghost use Rattle.rendering.specs.Room.{text_bytes};
ghost use Rattle.report.specs.Faces.{faces_printed, FacesText};
ghost use Rattle.report.specs.inside.Telling.{Levelled, Told};

use crate::TEXT;
use checks::Check;
use checks::limits::{SIZES, WORDS};
use facefile::reader::counts;
use placing::place_face;
use rendering::render::{render, render_refused};
use sizes::Size;

// The height and the width of the opening.
pub const OPENING: u32 = 64_000;

// The opening.
pub const WIDEST: Size = Size {
    height: OPENING,
    width: OPENING,
};

// The rib: parts touch.
pub const RIB: u32 = 0;

// The text of a face whose sizes have levels, or the check that refuses it. The words are first the arena of its list and
// then, with the list written, the scratch of its layout; there are two for each of at most 449 items, and five for each
// of at most 64 gauges.
fn placed_text(file: &[u8], levels: &[u8], gauges: usize, text: &mut [u8]) -> Result<usize, Check>
    requires levelled { Levelled file.now levels.now gauges }
    requires text_long { text_bytes ≤ length text.old }
    ensures { Told text_bytes (faces_printed (face_of file.now)) text.old result text.new }
{
    let mut words = [0u32; WORDS];
    let mut items = [0u32; 898];
    let mut layout = [0u32; 320];
    let count = shapes::write_list(file, levels, RIB, &mut words, &mut items);
    let face = place_face(file, RIB, WIDEST, &mut words, &mut layout)?;
    let listed = 2 * (count as usize);
    let placed = 5 * gauges;
    Ok(render(
        &items[..listed],
        face.height,
        face.width,
        face.area,
        &layout[..placed],
        text,
    ))
}

// The text of the face that a file means, or the check that refuses it.
fn told(file: &[u8], text: &mut [u8]) -> Result<usize, Check>
    requires { text_bytes ≤ length text.old }
    ensures { Told text_bytes (faces_printed (face_of file.now)) text.old result text.new }
{
    let counted = counts(file)?;
    let mut room = [0u8; SIZES];
    let levels = &mut room[..counted.sizes];
    levels::fill_taken(file, levels);
    placed_text(file, levels, counted.gauges, text)
}

// The text that `faces` prints for a file of these bytes, in a buffer with room for every text. Answers its length; 0,
// with the buffer as it was, where there is less room. The file's checks are made once, and its list is built once.
pub fn faces_text(file: &[u8], text: &mut [u8]) -> usize
    ensures faces_text { FacesText (face_of file.now) text.old text.new result }
    ensures counted { Counted text_bytes text.new result }
{
    if text.len() < TEXT {
        return 0;
    }
    match told(file, text) {
        Ok(length) => length,
        Err(check) => render_refused(check.number(), text),
    }
}
