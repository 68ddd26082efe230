// The text of a face from its words, and the line of a refused one, from the start of a buffer.
ghost use Rattle.std.specs.Prelude.{◌≡◌, List, ◌*◌, ◌≤◌, length};
ghost use Rattle.text.specs.Printing.{Printed, Counted};
ghost use Rattle.slicing.specs.Item.{Item};
ghost use Rattle.writing.specs.Words.{list_words};
ghost use Rattle.rendering.specs.Text.{faces_text, refused_text};
ghost use Rattle.rendering.specs.Room.{text_bytes, refused_bytes};

use crate::lines::{write_best, write_gauges, write_items};
use text::page::Page;

// The text of a face that is taken. Height and width of each item stand in `items`, and five words of each gauge in
// `layout`. Answers the text's length.
pub fn render(
    items: &[u32],
    height: u32,
    width: u32,
    area: u32,
    layout: &[u32],
    text: &mut [u8],
) -> usize
    requires { (length items.now ≤ 2 * 449) × (length layout.now ≤ 5 * 64) × (text_bytes ≤ length text.old) }
    ensures printed { (l : List Item) (z : Item) → items.now ≡ list_words l → height ≡ z.m → width ≡ z.p → area ≡ z.m * z.p → Printed (faces_text l z layout.now) text.old text.new result }
    ensures counted { Counted text_bytes text.new result }
{
    let count = (items.len() / 2) as u32;
    let mut page = Page::new(text);
    page.named(b"faces ", count, b'\n');
    write_items(&mut page, items);
    write_best(&mut page, height, width, area);
    write_gauges(&mut page, layout);
    page.at
}

// The line of a face that is refused with a number. Answers its length.
pub fn render_refused(number: u32, text: &mut [u8]) -> usize
    requires { refused_bytes ≤ length text.old }
    ensures printed { Printed (refused_text number) text.old text.new result }
    ensures counted { Counted refused_bytes text.new result }
{
    let mut page = Page::new(text);
    page.named(b"refused ", number, b'\n');
    page.at
}
