// The sizes of a gauge in words, two words a size, and check 8.
ghost use Rattle.std.specs.Prelude.{◌≡◌, ◌+◌, ◌*◌, ◌≤◌, length, drop};
ghost use Rattle.slicing.specs.Item.{size};
ghost use Rattle.sizes.specs.GaugeSizes.{sizes_from};
ghost use Rattle.sizes.specs.inside.Sizes.{asked};
ghost use Rattle.facewords.specs.Words.{size_in_words, word_rules};

use checks::Check;
use sizes::Size;

// The size at a place: its height, then its width.
fn size_at(words: &[u32], at: usize) -> Size
    requires { at + 2 ≤ length words.now }
    ensures { size result.height result.width ≡ size_in_words (drop at words.now) }
{
    Size {
        height: words[at],
        width: words[at + 1],
    }
}

// Check 8 of the sizes at a place, taken in turn.
pub fn ask_limits(words: &[u32], at: usize, count: usize) -> Result<(), Check>
    requires { (1 ≤ count) × (count ≤ 8) × (at + 2 * count ≤ length words.now) }
    ensures { result ≡ asked (sizes_from word_rules count (drop at words.now)) }
{
    for i in 0..count {
        size_at(words, at + 2 * i).limits()?;
    }
    Ok(())
}
