// Checks 22, 16, 17 and 18.
ghost use Rattle.std.specs.Prelude.{◌≡◌};
ghost use Rattle.slicing.specs.Layout.{outline};
ghost use Rattle.lent.specs.Questions.{rib_given, opening_given, buffers_lent, output_lent};

use checks::Check;
use checks::limits::{OPENING, RIB};
use sizes::is_within;

// Check 22, of a rib.
#[tactic(auto, unfolding(crate::specs::Questions::rib_given))]
pub fn rib(rib: u32) -> Result<(), Check>
    ensures { result ≡ rib_given rib }
{
    if rib <= RIB { Ok(()) } else { Err(Check::Rib) }
}

// Check 16, of an opening.
#[tactic(auto, unfolding(crate::specs::Questions::opening_given))]
pub fn opening(height: u32, width: u32) -> Result<(), Check>
    ensures { result ≡ opening_given (outline height width) }
{
    if is_within(1, OPENING, height) && is_within(1, OPENING, width) {
        Ok(())
    } else {
        Err(Check::Opening)
    }
}

// Check 17, of an arena and a scratch of so many words.
#[tactic(auto, unfolding(crate::specs::Questions::buffers_lent))]
pub fn buffers(need: usize, arena: usize, scratch: usize) -> Result<(), Check>
    ensures { result ≡ buffers_lent need arena scratch }
{
    if need <= arena && need <= scratch {
        Ok(())
    } else {
        Err(Check::Buffers)
    }
}

// Check 18, of an output of so many words or bytes.
#[tactic(auto, unfolding(crate::specs::Questions::output_lent))]
pub fn output(need: usize, output: usize) -> Result<(), Check>
    ensures { result ≡ output_lent need output }
{
    if need <= output {
        Ok(())
    } else {
        Err(Check::Output)
    }
}
