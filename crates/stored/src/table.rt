// The table of a face's parts, in a lent scratch: four words a part.
ghost use Rattle.std.specs.Prelude.{◌≡◌, ◌+◌, ◌*◌, ◌^◌, ◌<◌, ◌≤◌, length};
ghost use Rattle.entries.specs.inside.Kinds.{byte_of};
ghost use Rattle.stored.specs.inside.PartWords.{kind_read, part_at, stretch_from, entry_at};

use entries::Kind;
use packed::stretch::Stretch;

// A part: where its list starts, how many items it has, the kind of its last entry, and its gauges.
#[derive(Clone, Copy)]
pub struct Part {
    pub from: usize,
    pub count: usize,
    pub kind: Kind,
    pub gauges: usize,
}

// The kind that a word stands for. No other word is stored for one; it would be read as a gauge's.
fn kind_of(word: u32) -> Kind
    ensures { result ≡ kind_read word }
{
    match word {
        3 => Kind::Stacked,
        2 => Kind::Beside,
        _ => Kind::Gauge,
    }
}

// The word that stands for a kind.
fn word_of(kind: Kind) -> u32
    ensures { result ≡ byte_of kind }
{
    kind as u32
}

impl Part {
    // The part that the four words of a number say.
    pub fn read(scratch: &[u32], part: usize) -> Part
        requires { 4 * part + 3 < length scratch.now }
        ensures { result ≡ part_at scratch.now part }
    {
        let at = 4 * part;
        Part {
            from: scratch[at] as usize,
            count: scratch[at + 1] as usize,
            kind: kind_of(scratch[at + 2]),
            gauges: scratch[at + 3] as usize,
        }
    }

    // Writes the four words of the part.
    pub fn store(self, scratch: &mut [u32], part: usize)
        requires { (4 * part + 4 ≤ length scratch.old) × (self.from < 65536) × (self.count < 65536) × (part < 127) × (self.gauges < 2 ^ 32) }
        ensures { scratch.new ≡ entry_at scratch.old part self.from self.count (byte_of self.kind) self.gauges }
    {
        let at = 4 * part;
        scratch[at] = self.from as u32;
        scratch[at + 1] = self.count as u32;
        scratch[at + 2] = word_of(self.kind);
        scratch[at + 3] = self.gauges as u32;
    }

    // The part's list, to be read the way of a join.
    pub fn stretch(self, join: Kind) -> Stretch
        ensures { result ≡ stretch_from self join }
    {
        Stretch {
            from: self.from,
            count: self.count,
            across: self.kind.runs_across(join),
        }
    }
}
