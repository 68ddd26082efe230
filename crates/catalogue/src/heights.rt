// Check 23.
ghost use Rattle.std.specs.Prelude.{◌≡◌};
ghost use Rattle.catalogue.specs.Heights.{fall, heights_given};

use checks::Check;
use checks::limits::HEIGHTS;

// Whether each height is 1 or more, and none is more than the one before.
fn is_falling(heights: &[u32]) -> bool
    ensures { result ≡ fall heights.now }
{
    let mut before = u32::MAX;
    for height in heights {
        if *height == 0 || before < *height {
            return false;
        }
        before = *height;
    }
    true
}

// Check 23, of the heights of a catalogue.
#[tactic(auto, unfolding(crate::specs::Heights::heights_given))]
pub fn heights_given(heights: &[u32]) -> Result<(), Check>
    ensures { result ≡ heights_given heights.now }
{
    if heights.len() <= HEIGHTS && is_falling(heights) {
        Ok(())
    } else {
        Err(Check::Heights)
    }
}
