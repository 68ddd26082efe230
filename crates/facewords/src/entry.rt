// The entries of taken words in turn, for the call that reads them again once they are known to be taken.
ghost use Rattle.std.specs.Prelude.{◌≡◌, drop};
ghost use Rattle.checks.specs.Answer.{taken};
ghost use Rattle.slicing.specs.Tree.{Tree};
ghost use Rattle.facewords.specs.Words.{words_face};
ghost use Rattle.facewords.specs.inside.Entries.{Stands};

use crate::FIRST_ENTRY;
use entries::Kind;

// An entry: a gauge with the words of its sizes, two a size, or a join of the two newest parts.
#[derive(Clone, Copy)]
pub enum Entry<'a> {
    Gauge(&'a [u32]),
    Join(Kind),
}

// The entries of words that are still to come, which begin at a place. One iterator over `entries::Units` for these and
// for bytes was tried: its `next` is not proved, since the laws of a run speak of the face, which `entries` does not know.
#[derive(Drop)]
pub struct Entries<'a> {
    pub words: &'a [u32],
    pub at: usize,
    ghost stands: { ∥ Stands (drop at words.now) ∥₁ },
}

impl<'a> Entries<'a> {
    ghost use Rattle.facewords.specs.inside.Entries.Gives.{rest_of};

    // All entries of taken words.
    pub fn of(words: &'a [u32]) -> Entries<'a>
        requires { (t : Tree) × (words_face words.now ≡ taken t) }
        ensures { rest_of result ≡ drop 1 words.now }
    {
        Entries {
            words,
            at: FIRST_ENTRY,
        }
    }
}

impl<'a> Iterator for Entries<'a> {
    ghost use Rattle.std.specs.Prelude.{length};
    ghost use Rattle.std.specs.Iterator.{at_most};
    ghost use Rattle.facewords.specs.inside.Entries.Gives.{Gives, rest_of};

    type Item = Entry<'a>;

    ghost next_gives = { Gives };

    ghost remaining = { λ s. at_most (length (rest_of s)) };

    fn next(&mut self) -> Option<Entry<'a>> {
        let &kind = self.words.get(self.at)?;
        if kind == Kind::Gauge as u32 {
            let from = self.at + 2;
            let to = from + 2 * self.words[self.at + 1] as usize;
            self.at = to;
            return Some(Entry::Gauge(&self.words[from..to]));
        }
        self.at += 1;
        if kind == Kind::Stacked as u32 {
            Some(Entry::Join(Kind::Stacked))
        } else {
            Some(Entry::Join(Kind::Beside))
        }
    }
}
