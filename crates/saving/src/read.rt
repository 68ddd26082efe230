// The reading call: a file to words.
ghost use Rattle.std.specs.Prelude.{◌≡◌, ◌+◌, ◌*◌, ◌≤◌};
ghost use Rattle.checks.specs.Answer.{taken};
ghost use Rattle.checks.specs.Limits.{most_gauges, most_sizes};
ghost use Rattle.slicing.specs.Tree.{Tree};
ghost use Rattle.facefile.specs.Format.{face_of};
ghost use Rattle.writing.specs.Words.{list_words};
ghost use Rattle.written.specs.EntriesOf.{entries_of};
ghost use Rattle.text.specs.inside.Writing.{Fits, Wrote};
ghost use Rattle.saving.specs.Saving.{WordPromise};
ghost use Rattle.saving.specs.inside.Answers.{worded_as};

use crate::Worded;
use checks::Check;
use facefile::entry::{Entries, Entry, size_count};
use facefile::{Counts, reader};
use gauges::put_gauge;
use text::page::Page;

// How many words a face of so many gauges and sizes takes: one, one for each of 2g - 1 entries, one more for each gauge,
// and two for each size.
fn word_count(counts: Counts) -> usize
    requires { (counts.gauges ≤ most_gauges) × (counts.sizes ≤ most_sizes) }
    ensures { result ≡ 3 * counts.gauges + 2 * counts.sizes }
{
    3 * counts.gauges + 2 * counts.sizes
}

// The entries of a taken file, as words.
fn put_entries(page: &mut Page<'_, u32>, file: &[u8])
    requires { (t : Tree) × (face_of file.now ≡ taken t) × Fits page.old (entries_of list_words t) }
    ensures { (t : Tree) → face_of file.now ≡ taken t → Wrote page.old (entries_of list_words t) page.new }
{
    for entry in Entries::of(file) {
        match entry {
            Entry::Gauge(sizes) => put_gauge(page, sizes, size_count(sizes)),
            Entry::Join(kind) => page.put(kind as u32),
        }
    }
}

// The checks of the reading call, then the file's words. Answers how many they are.
fn worded(file: &[u8], output: &mut [u32]) -> Result<u32, Check>
    ensures { WordPromise (face_of file.now) output.old (worded_as result) output.new }
{
    let counts = reader::counts(file)?;
    lent::output(word_count(counts), output.len())?;
    let mut page = Page::new(output);
    page.put((2 * counts.gauges - 1) as u32);
    put_entries(&mut page, file);
    Ok(page.at as u32)
}

// Checks 1 to 13 on the file, then 18, and then its words from the output's start. A refusal leaves the output as it was.
pub fn read_words(file: &[u8], output: &mut [u32]) -> Worded
    ensures { WordPromise (face_of file.now) output.old result output.new }
{
    match worded(file, output) {
        Ok(count) => Worded { number: 0, count },
        Err(check) => Worded {
            number: check.number(),
            count: 0,
        },
    }
}
