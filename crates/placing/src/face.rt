// The smallest face of a taken file in an opening: every part's list is stored, one item of the face's is picked, and its
// layout goes down the tree.
ghost use Rattle.slicing.specs.Layout.{outline};
ghost use Rattle.placing.specs.Found.{fitted_as};
ghost use Rattle.placing.specs.inside.Facing.{Placeable, PlacedIn};

use crate::Placed;
use checks::Check;
use entries::Kind;
use laying::lay::{Corner, item_at, lay};
use packed::item::{m_of, p_of};
use picking::pick::pick;
use sizes::Size;
use stored::fill::{store_lists, stretch};

// The smallest face of a taken file in an opening, with a rib at each join, its layout in the output; 19 where none is
// inside, with the output as it was. No list is built in an arena. It is for callers that have made the checks of the
// fit call.
pub fn place_face(
    file: &[u8],
    rib: u32,
    opening: Size,
    scratch: &mut [u32],
    output: &mut [u32],
) -> Result<Placed, Check>
    requires { Placeable file.now rib scratch.old output.old }
    ensures { PlacedIn file.now rib (outline opening.height opening.width) (fitted_as result) output.old output.new }
{
    let root = store_lists(file, rib, scratch);
    let list = stretch(scratch, root, Kind::Beside);
    let place = pick(scratch, list, opening).ok_or(Check::Fits)?;
    let z = item_at(scratch, root, place);
    let height = m_of(z);
    let width = p_of(z);
    let count = list.count as u32;
    lay(scratch, root, place, rib, Corner { x: 0, y: 0 }, output);
    Ok(Placed {
        height,
        width,
        area: height * width,
        count,
    })
}
