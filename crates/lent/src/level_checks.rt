// Checks 14 and 15.
ghost use Rattle.std.specs.Prelude.{◌≡◌, ◌&&◌, leb};
ghost use Rattle.lent.specs.Questions.{level_count, levels_in_range, level_range, levels_lent};

use checks::Check;

// Check 14, of so many levels for n sizes.
#[tactic(auto, unfolding(crate::specs::Questions::level_count))]
pub fn level_count(n: usize, levels: usize) -> Result<(), Check>
    ensures { result ≡ level_count n levels }
{
    if levels == n {
        Ok(())
    } else {
        Err(Check::LevelCount)
    }
}

// Whether each level is 1 to 8. With no way out before the last level, the machine compares many at once.
fn levels_in_range(levels: &[u8]) -> bool
    ensures { result ≡ levels_in_range levels.now }
{
    let mut fine = true;
    for level in levels {
        fine = fine & (1 <= *level) & (*level <= 8);
    }
    fine
}

// Check 15.
#[tactic(auto, unfolding(crate::specs::Questions::level_range))]
fn level_range(levels: &[u8]) -> Result<(), Check>
    ensures { result ≡ level_range levels.now }
{
    if levels_in_range(levels) {
        Ok(())
    } else {
        Err(Check::LevelRange)
    }
}

// Checks 14 and 15, of the levels of n sizes.
#[tactic(auto, unfolding(crate::specs::Questions::levels_lent))]
pub fn levels(n: usize, levels: &[u8]) -> Result<(), Check>
    ensures { result ≡ levels_lent n levels.now }
{
    level_count(n, levels.len())?;
    level_range(levels)
}
