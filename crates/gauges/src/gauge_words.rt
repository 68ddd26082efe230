// The words of a gauge, written on a page. Each function asks room for the very words that it writes.
ghost use Rattle.std.specs.Prelude.{◌≤◌};
ghost use Rattle.slicing.specs.Tree.{gauge};
ghost use Rattle.writing.specs.Words.{list_words};
ghost use Rattle.sizes.specs.inside.Sizes.{sizes_in, Sized};
ghost use Rattle.written.specs.EntriesOf.{entries_of};
ghost use Rattle.text.specs.inside.Writing.{Fits, Wrote};

use entries::Kind;
use sizes::size_in;
use text::page::Page;

// The heights and widths of so many sizes that stand in bytes.
fn put_sizes(page: &mut Page<'_, u32>, sizes: &[u8], count: usize)
    requires { Sized count sizes.now × Fits page.old (list_words (sizes_in count sizes.now)) }
    ensures { Wrote page.old (list_words (sizes_in count sizes.now)) page.new }
{
    for k in 0..count {
        let z = size_in(sizes, k);
        page.put(z.height);
        page.put(z.width);
    }
}

// A gauge: its kind, its number of sizes, and the sizes.
pub fn put_gauge(page: &mut Page<'_, u32>, sizes: &[u8], count: usize)
    requires { (count ≤ 8) × Sized count sizes.now × Fits page.old (entries_of list_words (gauge (sizes_in count sizes.now))) }
    ensures { Wrote page.old (entries_of list_words (gauge (sizes_in count sizes.now))) page.new }
{
    page.put(Kind::Gauge as u32);
    page.put(count as u32);
    put_sizes(page, sizes, count);
}
