// The words of a face, from which its entries are read. A whole word is a kind: 257 is none.
ghost use Rattle.facewords.specs.Words.{word_rules};

use crate::size;
use checks::Check;
use entries::Units;

#[derive(Clone, Copy)]
pub struct Words<'a> {
    pub words: &'a [u32],
}

impl<'a> Units for Words<'a> {
    ghost numbers = { λ x. x.words.now };

    ghost rules = { λ x. word_rules };

    fn len(self) -> usize {
        self.words.len()
    }

    fn step(self) -> usize {
        2
    }

    fn unit(self, at: usize) -> u32 {
        self.words[at]
    }

    fn ask_sizes(self, at: usize, count: usize) -> Result<(), Check> {
        size::ask_limits(self.words, at, count)
    }
}
