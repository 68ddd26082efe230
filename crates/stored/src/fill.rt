// The shape lists of every part of a taken file.
ghost use Rattle.std.specs.Prelude.{◌≡◌, ◌⊎◌, ℕ, ◌+◌, ◌*◌, ◌<◌, ◌≤◌, length};
ghost use Rattle.checks.specs.Answer.{taken};
ghost use Rattle.slicing.specs.Tree.{Tree};
ghost use Rattle.slicing.specs.Useful.{gauge_shapes};
ghost use Rattle.facefile.specs.Format.{face_of};
ghost use Rattle.sizes.specs.inside.Sizes.{sizes_in};
ghost use Rattle.entries.specs.inside.Kinds.{byte_of};
ghost use Rattle.useful.specs.inside.Order.{GaugeBytes, order_word};
ghost use Rattle.stored.specs.inside.PartWords.{stretch_of};
ghost use Rattle.stored.specs.inside.Filling.{Fillable, Filled};
ghost use Rattle.stored.specs.inside.Adding.{Room, PackedBefore, GaugeAdded, JoinRoom, JoinAdded};

use crate::table::Part;
use entries::Kind;
use facefile::entry::{Entries, Entry, asks_order, size_count};
use packed::item::packed;
use packed::merge::merge_lists;
use packed::stretch::Stretch;
use sizes::size_in;
use useful::order::{in_order, order};

// The words of the table, four a part. The lists follow it.
const TABLE: usize = 508;

// Packs the useful ones of a gauge's sizes, four bytes a size, so that they end before the place `end`: the digits of
// `named` name them from the last to the first. Answers where the first stands.
fn store_sizes(scratch: &mut [u32], end: usize, bytes: &[u8], named: u32) -> usize
    requires { (n : ℕ) × GaugeBytes n bytes.now × (named ≡ order_word (sizes_in n bytes.now)) × (n ≤ end) × (end ≤ length scratch.old) }
    ensures { (n : ℕ) → GaugeBytes n bytes.now → named ≡ order_word (sizes_in n bytes.now) → PackedBefore scratch.old scratch.new result end (gauge_shapes (sizes_in n bytes.now)) }
{
    let mut at = end;
    let mut left = named;
    // Digits are taken off until none is left: no place or item is counted here.
    while 0 < left {
        let k = (left % 16) as usize - 1;
        let z = size_in(bytes, k);
        at -= 1;
        scratch[at] = packed(z.height, z.width);
        left = left / 16;
    }
    at
}

// Adds a gauge as a part: its useful sizes in the places from `to` on, and behind them the word that names them.
fn store_gauge(scratch: &mut [u32], part: usize, to: usize, bytes: &[u8], count: usize, named: u32)
    requires { Room scratch.old part to (count + 1) × GaugeBytes count bytes.now × (named ≡ order_word (sizes_in count bytes.now)) }
    ensures { GaugeAdded scratch.old scratch.new part to (to + count) (sizes_in count bytes.now) }
{
    let end = to + count;
    scratch[end] = named;
    let from = store_sizes(scratch, end, bytes, named);
    let gauge = Part {
        from,
        count: end - from,
        kind: Kind::Gauge,
        gauges: 1,
    };
    gauge.store(scratch, part);
}

// The list of a part, to be read the way of a join.
pub fn stretch(scratch: &[u32], part: usize, join: Kind) -> Stretch
    requires { 4 * part + 3 < length scratch.now }
    ensures { result ≡ stretch_of scratch.now part (byte_of join) }
{
    Part::read(scratch, part).stretch(join)
}

// The two parts, the one with more items first.
fn longer_first(older: Part, newer: Part) -> (Part, Part)
    ensures { ((result.0 ≡ older) × (result.1 ≡ newer)) ⊎ ((result.0 ≡ newer) × (result.1 ≡ older)) }
{
    if older.count < newer.count {
        (newer, older)
    } else {
        (older, newer)
    }
}

// Adds a join of the part before it and the older part before that, with a rib between them: the merge of their lists
// from the place `to` on. Answers how many items it has. The merge of two lists is that of the two exchanged, so the
// longer one is given first, and the rib is added to the items of the shorter.
fn store_join(scratch: &mut [u32], part: usize, to: usize, kind: Kind, rib: u32) -> usize
    requires { (cut : Tree → Tree → Tree) × (a : Tree) × (b : Tree) × JoinRoom rib scratch.old part to (byte_of kind) cut a b }
    ensures { (cut : Tree → Tree → Tree) (a b : Tree) → JoinRoom rib scratch.old part to (byte_of kind) cut a b → JoinAdded rib scratch.old scratch.new part to (byte_of kind) result cut a b }
{
    let newer = Part::read(scratch, part - 1);
    let older = Part::read(scratch, part - 2 * newer.gauges);
    let (long, short) = longer_first(older, newer);
    let count = merge_lists(scratch, long.stretch(kind), short.stretch(kind), rib, to);
    let join = Part {
        from: to,
        count,
        kind,
        gauges: older.gauges + newer.gauges,
    };
    join.store(scratch, part);
    count
}

// Stores the lists of every part of a taken file, with a rib at each join, in the order of its entries. Answers the number
// of the last part, which is the whole face.
pub fn store_lists(file: &[u8], rib: u32, scratch: &mut [u32]) -> usize
    requires { Fillable file.now rib scratch.old }
    ensures { (t : Tree) → face_of file.now ≡ taken t → Filled rib scratch.old scratch.new result t }
{
    let known = asks_order(file);
    let mut part = 0;
    let mut to = TABLE;
    for entry in Entries::of(file) {
        match entry {
            Entry::Gauge(sizes) => {
                let count = size_count(sizes);
                let named = if known {
                    in_order(count)
                } else {
                    order(sizes, count)
                };
                store_gauge(scratch, part, to, sizes, count, named);
                to += count + 1;
                part += 1;
            }
            Entry::Join(kind) => {
                to += store_join(scratch, part, to, kind, rib);
                part += 1;
            }
        }
    }
    part - 1
}
