// The parts of a taken file, from its first entry to the whole face.
ghost use Rattle.std.specs.Prelude.{◌≡◌, ◌<◌};
ghost use Rattle.checks.specs.Answer.{taken};
ghost use Rattle.slicing.specs.Tree.{Tree};
ghost use Rattle.facefile.specs.Format.{face_of};
ghost use Rattle.parts.specs.inside.Building.{Buildable, Whole};

use crate::heads::{FIRST, copy_head};
use crate::join::join;
use entries::Kind;
use facefile::entry::{Entries, Entry, asks_order, size_count};
use loading::load::load;
use useful::order::{in_order, order};

// Builds the list of the whole face at record 0, with a rib at each join and each record with its lent level, and
// answers the kind of the face's last entry. The parts that wait for their join stand on a stack: the heads of their
// lists, and their kinds.
pub fn build(file: &[u8], levels: &[u8], rib: u32, arena: &mut [u32]) -> Kind
    requires { Buildable file.now levels.now rib arena.old }
    ensures { (t : Tree) → face_of file.now ≡ taken t → Whole file.now levels.now rib arena.old arena.new result t }
{
    let known = asks_order(file);
    let mut kinds = [Kind::Gauge; 64];
    let mut parts = 0;
    let mut size = 0;
    for entry in Entries::of(file) {
        match entry {
            Entry::Gauge(sizes) => {
                let count = size_count(sizes);
                let end = size + count;
                let own = &levels[size..end];
                let named = if known {
                    in_order(count)
                } else {
                    order(sizes, count)
                };
                load(arena, FIRST + parts, size + 1, sizes, own, named);
                kinds[parts] = Kind::Gauge;
                parts += 1;
                size = end;
            }
            Entry::Join(kind) => {
                parts -= 1;
                let older = parts - 1;
                join(arena, older, kinds[older], kinds[parts], kind, rib);
                kinds[older] = kind;
            }
        }
    }
    copy_head(arena, FIRST, 0);
    kinds[0]
}
