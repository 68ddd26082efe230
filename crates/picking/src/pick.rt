// The item of a stored list that is picked for an opening.
ghost use Rattle.std.specs.Prelude.{◌≡◌, List, ◌+◌, ◌*◌, ◌<◌, length};
ghost use Rattle.slicing.specs.Item.{Item};
ghost use Rattle.slicing.specs.Layout.{outline};
ghost use Rattle.packed.specs.inside.Packed.{facing, HasList};
ghost use Rattle.picking.specs.inside.Picking.{Picks};

use packed::item::{m_of, p_of};
use packed::stretch::Stretch;
use sizes::Size;

// A size's rank among others: by area, and of equal areas by width.
fn rank_of(height: u32, width: u32) -> u64
    requires { (height < 65536) × (width < 65536) }
    ensures { result ≡ 65536 * (height * width) + width }
{
    65536 * ((height as u64) * (width as u64)) + width as u64
}

// The place of the item of least area inside the opening, and of equal areas of the least width, going from the last
// item to the first.
pub fn pick(scratch: &[u32], list: Stretch, opening: Size) -> Option<usize>
    requires { (l : List Item) × HasList scratch.now list.from l × (list.count ≡ length l) }
    ensures { (l : List Item) → HasList scratch.now list.from l → list.count ≡ length l → Picks (outline opening.height opening.width) (facing list.across l) result }
{
    let mut found = None;
    let mut best = u64::MAX;
    for k in (0..list.count).rev() {
        let z = list.item(scratch, k);
        let h = m_of(z);
        let w = p_of(z);
        if h <= opening.height && w <= opening.width {
            let rank = rank_of(h, w);
            if rank <= best {
                best = rank;
                found = Some(k);
            }
        }
    }
    found
}
