// All the words of a face: checks 4 to 8 and 10 to 13, as of a file of version 2.
ghost use Rattle.std.specs.Prelude.{◌≡◌};
ghost use Rattle.facefile.specs.Summary.{counted};
ghost use Rattle.facewords.specs.Words.{first_word, words_face};

use crate::FIRST_ENTRY;
use crate::words::Words;
use checks::Check;
use entries::entry::read_entries;
use facefile::Counts;
use facefile::reader::read_end;
use sizes::is_within;

// The first word, the number of entries: checks 5 and 4.
fn first_word(words: &[u32]) -> Result<u32, Check>
    ensures { result ≡ first_word words.now }
{
    let Some(&count) = words.first() else {
        return Err(Check::Present);
    };
    if !is_within(1, 127, count) {
        return Err(Check::Entries);
    }
    Ok(count)
}

// Checks 4 to 8 and 10 to 13 on any words: the first that fails, or what is counted.
pub fn counts(words: &[u32]) -> Result<Counts, Check>
    ensures { result ≡ counted (words_face words.now) }
{
    let count = first_word(words)?;
    let end = read_entries(Words { words }, FIRST_ENTRY, count as usize)?;
    read_end(words.len(), end)
}
