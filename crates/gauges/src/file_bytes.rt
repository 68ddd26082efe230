// The bytes of a file of version 2, written on a page. Each function asks room for the very bytes that it writes.
ghost use Rattle.std.specs.Prelude.{List, ◌<◌};
ghost use Rattle.slicing.specs.Item.{Item};
ghost use Rattle.slicing.specs.Tree.{gauge};
ghost use Rattle.facefile.specs.Gauge.{size_bytes};
ghost use Rattle.written.specs.EntriesOf.{entries_of};
ghost use Rattle.written.specs.FileOf.{field_bytes, header_bytes};
ghost use Rattle.text.specs.inside.Writing.{Fits, Wrote};
ghost use Rattle.gauges.specs.inside.GaugeWords.{GaugeWords};

use entries::Kind;
use text::page::Page;

const VERSION: u32 = 2;

// A 16-bit field, the high byte first: the last two bytes of the number.
fn write_field(page: &mut Page<'_, u8>, x: u32)
    requires { (x < 65536) × Fits page.old (field_bytes x) }
    ensures { Wrote page.old (field_bytes x) page.new }
{
    let bytes = x.to_be_bytes();
    page.copy(&bytes[2..]);
}

// What stands before the first entry: the mark, the version and the number of entries.
pub fn write_header(page: &mut Page<'_, u8>, entries: u32)
    requires { (entries < 65536) × Fits page.old (header_bytes entries) }
    ensures { Wrote page.old (header_bytes entries) page.new }
{
    page.copy(b"FCE");
    write_field(page, VERSION);
    write_field(page, entries);
}

// The sizes of a gauge, from its words: the height of each, then its width.
fn write_sizes(page: &mut Page<'_, u8>, sizes: &[u32])
    requires { (z : List Item) × GaugeWords sizes.now z × Fits page.old (size_bytes z) }
    ensures { (z : List Item) → GaugeWords sizes.now z → Wrote page.old (size_bytes z) page.new }
{
    for size in sizes.chunks_exact(2) {
        let height = size[0];
        let width = size[1];
        write_field(page, height);
        write_field(page, width);
    }
}

// A gauge from the words of its sizes: its kind, its number of sizes, and the sizes.
pub fn write_gauge(page: &mut Page<'_, u8>, sizes: &[u32])
    requires { (z : List Item) × GaugeWords sizes.now z × Fits page.old (entries_of size_bytes (gauge z)) }
    ensures { (z : List Item) → GaugeWords sizes.now z → Wrote page.old (entries_of size_bytes (gauge z)) page.new }
{
    page.put(Kind::Gauge as u8);
    page.put((sizes.len() / 2) as u8);
    write_sizes(page, sizes);
}
