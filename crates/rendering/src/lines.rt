// The lines of the text, written on a page. Each function asks room for its lines.
ghost use Rattle.std.specs.Prelude.{◌≤◌, length};
ghost use Rattle.text.specs.inside.Writing.{Fits, Wrote};
ghost use Rattle.rendering.specs.Text.{item_line, best_line, gauge_line, gauge_lines};
ghost use Rattle.rendering.specs.inside.WordLines.{word_lines};

use text::page::Page;

// An item: height, width.
fn write_item(page: &mut Page<'_, u8>, height: u32, width: u32)
    requires { Fits page.old (item_line height width) }
    ensures { Wrote page.old (item_line height width) page.new }
{
    page.field(height, b' ');
    page.field(width, b'\n');
}

// The items, two words each.
pub fn write_items(page: &mut Page<'_, u8>, items: &[u32])
    requires { Fits page.old (word_lines items.now) }
    ensures { Wrote page.old (word_lines items.now) page.new }
{
    for item in items.chunks_exact(2) {
        write_item(page, item[0], item[1]);
    }
}

// The best item: height, width, area.
pub fn write_best(page: &mut Page<'_, u8>, height: u32, width: u32, area: u32)
    requires { Fits page.old (best_line height width area) }
    ensures { Wrote page.old (best_line height width area) page.new }
{
    page.named(b"best ", height, b' ');
    page.field(width, b' ');
    page.field(area, b'\n');
}

// A gauge: number, size, across, up.
fn write_gauge(page: &mut Page<'_, u8>, number: u32, size: u32, across: u32, up: u32)
    requires { Fits page.old (gauge_line number size across up) }
    ensures { Wrote page.old (gauge_line number size across up) page.new }
{
    page.named(b"gauge ", number, b' ');
    page.named(b"size ", size, b' ');
    page.named(b"at ", across, b' ');
    page.field(up, b'\n');
}

// The gauges, five words each, of which the first three are printed.
pub fn write_gauges(page: &mut Page<'_, u8>, layout: &[u32])
    requires { (length layout.now ≤ 320) × Fits page.old (gauge_lines 1 layout.now) }
    ensures { Wrote page.old (gauge_lines 1 layout.now) page.new }
{
    for (number, words) in (1..).zip(layout.chunks_exact(5)) {
        write_gauge(page, number, words[0], words[1], words[2]);
    }
}
