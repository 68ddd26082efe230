// Checks 8 and 9 of a gauge's sizes, taken in turn.
ghost use Rattle.std.specs.Prelude.{◌≡◌, true, cond, ◌&&◌, ℕ, ◌+◌, ◌*◌, ◌≤◌, length, drop};
ghost use Rattle.checks.specs.Answer.{taken, ask};
ghost use Rattle.checks.specs.declared.Check.TheVariants.{Limits, Order};
ghost use Rattle.slicing.specs.Item.{size};
ghost use Rattle.sizes.specs.GaugeSizes.{limited, ordered, version_rules, sizes_from};
ghost use Rattle.sizes.specs.inside.Sizes.{asked};

use crate::Size;
use crate::field::{is_within, size_at};
use checks::Check;

impl Size {
    // Whether height and width both are 1 to 1,000.
    pub fn is_limited(self) -> bool
        ensures { result ≡ limited (size self.height self.width) }
    {
        is_within(1, 1000, self.height) && is_within(1, 1000, self.width)
    }

    // Check 8.
    pub fn limits(self) -> Result<(), Check>
        ensures { result ≡ ask (limited (size self.height self.width)) Limits (taken (tt {0})) }
    {
        if self.is_limited() {
            Ok(())
        } else {
            Err(Check::Limits)
        }
    }

    // Whether it is less high and wider than the size before it.
    fn is_after(self, before: Size) -> bool
        ensures { result ≡ ordered (size before.height before.width) (size self.height self.width) }
    {
        self.height < before.height && before.width < self.width
    }
}

// The first of checks 8 and 9 that fails, where z does not stand in order after the size before it.
fn disorder(before: Size, z: Size) -> Check
    ensures { result ≡ cond (limited (size before.height before.width) && limited (size z.height z.width)) Order Limits }
{
    if before.is_limited() && z.is_limited() {
        Check::Order
    } else {
        Check::Limits
    }
}

// Checks 8 and 9 of the sizes at a place in a file of version 1. Sizes that stand in order lie between the first and
// the last, so only these two are asked whether they are within the limits.
fn ask_both(file: &[u8], at: usize, count: usize) -> Result<(), Check>
    requires { (1 ≤ count) × (count ≤ 8) × (at + 4 * count ≤ length file.now) }
    ensures { result ≡ asked (sizes_from (version_rules 1) count (drop at file.now)) }
{
    let first = size_at(file, at);
    first.limits()?;
    let mut before = first;
    for i in 1..count {
        let z = size_at(file, at + 4 * i);
        if !z.is_after(before) {
            return Err(disorder(before, z));
        }
        before = z;
    }
    // With the answer of this call as the last expression a gauge takes 7 to 13 instructions more.
    before.limits()?;
    Ok(())
}

// The same in a file of another version, which does not ask check 9.
fn ask_limits(file: &[u8], at: usize, count: usize) -> Result<(), Check>
    requires { (count ≤ 8) × (at + 4 * count ≤ length file.now) }
    ensures { (v : ℕ) → (v ≡ 1 → ⊥) → result ≡ asked (sizes_from (version_rules v) count (drop at file.now)) }
{
    for i in 0..count {
        size_at(file, at + 4 * i).limits()?;
    }
    Ok(())
}

// Checks 8 and 9 of the sizes at a place, taken in turn.
pub fn ask_sizes(file: &[u8], version: u32, at: usize, count: usize) -> Result<(), Check>
    requires { (1 ≤ count) × (count ≤ 8) × (at + 4 * count ≤ length file.now) }
    ensures { result ≡ asked (sizes_from (version_rules version) count (drop at file.now)) }
{
    if version == 1 {
        ask_both(file, at, count)
    } else {
        ask_limits(file, at, count)
    }
}
