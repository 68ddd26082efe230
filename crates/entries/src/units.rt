// What entries are read from.
ghost use Rattle.std.specs.Prelude.{◌≡◌, List, ℕ, ◌+◌, ◌*◌, ◌<◌, ◌≤◌, length, get_or, drop};
ghost use Rattle.sizes.specs.Rules.{Rules};
ghost use Rattle.sizes.specs.GaugeSizes.{sizes_from};
ghost use Rattle.sizes.specs.inside.Sizes.{asked};

use checks::Check;

// The bytes of a file of some version, or words. A unit, a byte or a word, is a kind or a number of sizes.
pub trait Units {
    // The units.
    ghost numbers: { Self → List ℕ };

    // What the questions of the entries hang on.
    ghost rules: { Self → Rules };

    // How many units there are.
    fn len(self) -> usize
        ensures { result ≡ length (numbers self) };

    // How many of them a size takes.
    fn step(self) -> usize
        ensures { (result ≡ (rules self).step) × (result ≤ 4) };

    // The unit at a place.
    fn unit(self, at: usize) -> u32
        requires { at < length (numbers self) }
        ensures { result ≡ get_or (numbers self) at 0 };

    // Checks 8 and 9 of the sizes at a place, taken in turn.
    fn ask_sizes(self, at: usize, count: usize) -> Result<(), Check>
        requires { (1 ≤ count) × (count ≤ 8) × (at + (rules self).step * count ≤ length (numbers self)) }
        ensures { result ≡ asked (sizes_from (rules self) count (drop at (numbers self))) };
}
