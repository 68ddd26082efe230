// The text of the material sheet, from the start of a buffer.
ghost use Rattle.std.specs.Prelude.{◌≡◌, List, ℕ, ◌+◌, length};
ghost use Rattle.text.specs.Printing.{Printed};
ghost use Rattle.slicing.specs.Item.{Item};
ghost use Rattle.covering.specs.Covered.{total};
ghost use Rattle.materiallines.specs.Lines.{sheet_text};
ghost use Rattle.materiallines.specs.inside.Listing.{Holds, Renderable};

use crate::areas::total_area;
use crate::lines::write_gauges;
use text::page::Page;

// The sheet of a layout, five words a gauge, with the area of its face. What is not used of the face is blank. Answers
// the text's length.
pub fn write_sheet(layout: &[u32], face: u32, text: &mut [u8]) -> usize
    requires { Renderable layout.now face (length text.old) }
    ensures { (sizes : List Item) (blank : ℕ) → Holds layout.now sizes → total sizes + blank ≡ face → Printed (sheet_text sizes blank face) text.old text.new result }
{
    let used = total_area(layout);
    let mut page = Page::new(text);
    write_gauges(&mut page, layout);
    page.named(b"used ", used, b'\n');
    page.named(b"blank ", face - used, b'\n');
    page.named(b"face ", face, b'\n');
    page.at
}
