// The entries of a taken file in turn, for the calls that read it again once it is known to be taken, and what it says of
// the sizes of its gauges.
ghost use Rattle.std.specs.Prelude.{◌≡◌, ◌≤◌, length, drop};
ghost use Rattle.checks.specs.Answer.{taken};
ghost use Rattle.slicing.specs.Tree.{Tree};
ghost use Rattle.sizes.specs.Rules.{asks_order};
ghost use Rattle.facefile.specs.Format.{rules_of, face_of};
ghost use Rattle.facefile.specs.inside.Entries.{Stands, count_of};

use entries::Kind;
use sizes::field::field;

// Where the first entry begins.
pub(crate) const FIRST_ENTRY: usize = 7;

// An entry: a gauge with the bytes of its sizes, four a size, or a join of the two newest parts.
#[derive(Clone, Copy)]
pub enum Entry<'a> {
    Gauge(&'a [u8]),
    Join(Kind),
}

// The entries of a file that are still to come, which begin at a place. `facewords::entry` says why it has its own.
#[derive(Drop)]
pub struct Entries<'a> {
    pub file: &'a [u8],
    pub at: usize,
    ghost stands: { ∥ Stands (drop at file.now) ∥₁ },
}

impl<'a> Entries<'a> {
    ghost use Rattle.facefile.specs.inside.Entries.Gives.{rest_of};

    // All entries of a taken file.
    pub fn of(file: &'a [u8]) -> Entries<'a>
        requires { (t : Tree) × (face_of file.now ≡ taken t) }
        ensures { rest_of result ≡ drop 7 file.now }
    {
        Entries {
            file,
            at: FIRST_ENTRY,
        }
    }
}

impl<'a> Iterator for Entries<'a> {
    ghost use Rattle.std.specs.Prelude.{length};
    ghost use Rattle.std.specs.Iterator.{at_most};
    ghost use Rattle.facefile.specs.inside.Entries.Gives.{Gives, rest_of};

    type Item = Entry<'a>;

    ghost next_gives = { Gives };

    ghost remaining = { λ s. at_most (length (rest_of s)) };

    fn next(&mut self) -> Option<Entry<'a>> {
        let &kind = self.file.get(self.at)?;
        if kind == Kind::Gauge as u8 {
            let from = self.at + 2;
            let to = from + 4 * usize::from(self.file[self.at + 1]);
            self.at = to;
            return Some(Entry::Gauge(&self.file[from..to]));
        }
        self.at += 1;
        if kind == Kind::Stacked as u8 {
            Some(Entry::Join(Kind::Stacked))
        } else {
            Some(Entry::Join(Kind::Beside))
        }
    }
}

// How many sizes stand in the bytes that an entry gives of a gauge.
pub fn size_count(sizes: &[u8]) -> usize
    ensures { result ≡ count_of sizes.now }
{
    sizes.len() / 4
}

// Whether the sizes of every gauge of a taken file stand in order, since check 9 asked it of them.
pub fn asks_order(file: &[u8]) -> bool
    requires { 7 ≤ length file.now }
    ensures { result ≡ asks_order (rules_of file.now) }
{
    field(file, 3) == 1
}
