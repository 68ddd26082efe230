// The writing call: words to a file.
ghost use Rattle.std.specs.Prelude.{◌≡◌, ◌+◌, ◌*◌, ◌≤◌};
ghost use Rattle.checks.specs.Answer.{taken};
ghost use Rattle.checks.specs.Limits.{most_gauges, most_sizes};
ghost use Rattle.slicing.specs.Tree.{Tree};
ghost use Rattle.facefile.specs.Gauge.{size_bytes};
ghost use Rattle.written.specs.EntriesOf.{entries_of};
ghost use Rattle.facewords.specs.Words.{words_face};
ghost use Rattle.text.specs.inside.Writing.{Fits, Wrote};
ghost use Rattle.saving.specs.Saving.{SavePromise};
ghost use Rattle.saving.specs.inside.Answers.{saved_as};

use crate::Saved;
use checks::Check;
use facefile::Counts;
use facewords::entry::{Entries, Entry};
use gauges::{write_gauge, write_header};
use text::page::Page;

// The length of the file of a face of so many gauges and sizes: 7 bytes, one for each of 2g - 1 entries, one more for each
// gauge, and four for each size.
fn file_length(counts: Counts) -> usize
    requires { (counts.gauges ≤ most_gauges) × (counts.sizes ≤ most_sizes) }
    ensures { result ≡ 6 + 3 * counts.gauges + 4 * counts.sizes }
{
    6 + 3 * counts.gauges + 4 * counts.sizes
}

// The entries of taken words, as the bytes of a file.
fn write_entries(page: &mut Page<'_, u8>, words: &[u32])
    requires { (t : Tree) × (words_face words.now ≡ taken t) × Fits page.old (entries_of size_bytes t) }
    ensures { (t : Tree) → words_face words.now ≡ taken t → Wrote page.old (entries_of size_bytes t) page.new }
{
    for entry in Entries::of(words) {
        match entry {
            Entry::Gauge(sizes) => write_gauge(page, sizes),
            Entry::Join(kind) => page.put(kind as u8),
        }
    }
}

// The checks of the writing call, then the file of version 2. Answers its length.
fn saved(words: &[u32], output: &mut [u8]) -> Result<u32, Check>
    ensures { SavePromise (words_face words.now) output.old (saved_as result) output.new }
{
    let counts = facewords::counts(words)?;
    lent::output(file_length(counts), output.len())?;
    let mut page = Page::new(output);
    write_header(&mut page, (2 * counts.gauges - 1) as u32);
    write_entries(&mut page, words);
    Ok(page.at as u32)
}

// Checks 4 to 8 and 10 to 13 on the words, then 18, and then the file of version 2 from the output's start. A refusal
// leaves the output as it was.
pub fn write_file(words: &[u32], output: &mut [u8]) -> Saved
    ensures { SavePromise (words_face words.now) output.old result output.new }
{
    match saved(words, output) {
        Ok(length) => Saved { number: 0, length },
        Err(check) => Saved {
            number: check.number(),
            length: 0,
        },
    }
}
