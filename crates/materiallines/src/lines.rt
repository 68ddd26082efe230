// The lines of the gauges, written on a page.
ghost use Rattle.std.specs.Prelude.{List};
ghost use Rattle.text.specs.inside.Writing.{Fits, Wrote};
ghost use Rattle.slicing.specs.Item.{Item};
ghost use Rattle.materiallines.specs.Lines.{gauge_line, gauge_lines};
ghost use Rattle.materiallines.specs.inside.Listing.{Holds, Listable};

use text::page::Page;

// A gauge: number, width, height, area.
fn write_gauge(page: &mut Page<'_, u8>, number: u32, width: u32, height: u32, area: u32)
    requires { Fits page.old (gauge_line number width height area) }
    ensures { Wrote page.old (gauge_line number width height area) page.new }
{
    page.field(number, b' ');
    page.field(width, b' ');
    page.field(height, b' ');
    page.field(area, b'\n');
}

// The gauges, five words each, of which the last two are printed with their product.
pub fn write_gauges(page: &mut Page<'_, u8>, layout: &[u32])
    requires { Listable page.old layout.now }
    ensures { (sizes : List Item) → Holds layout.now sizes → Wrote page.old (gauge_lines 1 sizes) page.new }
{
    for (number, words) in (1..).zip(layout.chunks_exact(5)) {
        let width = words[3];
        let height = words[4];
        write_gauge(page, number, width, height, height * width);
    }
}
