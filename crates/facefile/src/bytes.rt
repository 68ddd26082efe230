// The bytes of a file of some version, from which its entries are read.
ghost use Rattle.sizes.specs.GaugeSizes.{version_rules};

use checks::Check;
use entries::Units;
use sizes::questions;

#[derive(Clone, Copy)]
pub struct Bytes<'a> {
    pub bytes: &'a [u8],
    pub version: u32,
}

impl<'a> Units for Bytes<'a> {
    ghost numbers = { λ x. x.bytes.now };

    ghost rules = { λ x. version_rules x.version };

    fn len(self) -> usize {
        self.bytes.len()
    }

    fn step(self) -> usize {
        4
    }

    fn unit(self, at: usize) -> u32 {
        u32::from(self.bytes[at])
    }

    fn ask_sizes(self, at: usize, count: usize) -> Result<(), Check> {
        questions::ask_sizes(self.bytes, self.version, at, count)
    }
}
