// Numbers in the file's bytes.
ghost use Rattle.std.specs.Prelude.{◌≡◌, ℕ, ◌+◌, ◌<◌, ◌≤◌, length, drop};
ghost use Rattle.sizes.specs.GaugeSizes.{field, within, size_at};
ghost use Rattle.slicing.specs.Item.{size};
ghost use Rattle.sizes.specs.inside.Sizes.{Sized, SizeIn};

use crate::Size;

// The 16-bit field at a place, the high byte first.
pub fn field(file: &[u8], at: usize) -> u32
    requires { at + 2 ≤ length file.now }
    ensures { (result ≡ field file.now at) × (result < 65536) }
{
    256 * u32::from(file[at]) + u32::from(file[at + 1])
}

// The size at a place: its height, then its width.
pub fn size_at(file: &[u8], at: usize) -> Size
    requires { at + 4 ≤ length file.now }
    ensures size_value { size result.height result.width ≡ size_at (drop at file.now) }
    ensures fields_fit { (result.height < 65536) × (result.width < 65536) }
{
    Size {
        height: field(file, at),
        width: field(file, at + 2),
    }
}

// Size k of those that stand in the bytes.
pub fn size_in(sizes: &[u8], k: usize) -> Size
    requires { (n : ℕ) × Sized n sizes.now × (k < n) }
    ensures { SizeIn sizes.now k result }
{
    size_at(sizes, 4 * k)
}

// Whether x is from low to high.
pub fn is_within(low: u32, high: u32, x: u32) -> bool
    ensures { result ≡ within low high x }
{
    low <= x && x <= high
}
