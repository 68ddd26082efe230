// The fit call.
ghost use Rattle.std.specs.Prelude.{◌≡◌};
ghost use Rattle.slicing.specs.Layout.{outline};
ghost use Rattle.facefile.specs.Format.{face_of};
ghost use Rattle.lent.specs.Lent.{lent};
ghost use Rattle.placing.specs.Found.{fitted_as};
ghost use Rattle.fit.specs.Fitting.{fit_asks};
ghost use Rattle.fit.specs.Promise.{FitPromise};

use checks::Check;
use checks::limits::WORDS;
use facefile::reader;
use parts::build::build;
use placing::{Fitted, Placed, place_face};
use sizes::Size;

// How long the buffers are that a call is lent.
#[derive(Clone, Copy)]
pub struct Lengths {
    pub arena: usize,
    pub scratch: usize,
    pub output: usize,
}

// Checks 14, 15, 22 and 16 to 18, of the levels, the rib, the opening and the lengths of the lent buffers, where the output
// is to be so long: the first that fails.
#[tactic(auto, unfolding(crate::specs::Fitting::fit_asks))]
pub fn asked(
    n: usize,
    room: usize,
    levels: &[u8],
    rib: u32,
    opening: Size,
    lengths: Lengths,
) -> Result<(), Check>
    ensures { result ≡ fit_asks n room levels.now rib (outline opening.height opening.width) lengths.arena lengths.scratch lengths.output }
{
    lent::levels(n, levels)?;
    lent::rib(rib)?;
    lent::opening(opening.height, opening.width)?;
    lent::buffers(WORDS, lengths.arena, lengths.scratch)?;
    lent::output(room, lengths.output)
}

// The fit call, answered with the face that is placed or with the check that fails.
fn fitted(
    file: &[u8],
    levels: &[u8],
    rib: u32,
    opening: Size,
    arena: &mut [u32],
    scratch: &mut [u32],
    output: &mut [u32],
) -> Result<Placed, Check>
    ensures { FitPromise (face_of file.now) levels.now rib (outline opening.height opening.width) (lent arena.old scratch.old output.old) (fitted_as result) (lent arena.new scratch.new output.new) }
{
    let counts = reader::counts(file)?;
    let lengths = Lengths {
        arena: arena.len(),
        scratch: scratch.len(),
        output: output.len(),
    };
    let room = 5 * counts.gauges;
    asked(counts.sizes, room, levels, rib, opening, lengths)?;
    build(file, levels, rib, arena);
    place_face(file, rib, opening, scratch, output)
}

// Checks 1 to 18, with 22 right after 15, then the smallest face inside the opening with a rib between the parts of each
// join, its layout in the output and its list in the arena; 19 where none is inside, with the output as it was. Every
// other refusal leaves every lent buffer as it was.
pub fn fit(
    file: &[u8],
    levels: &[u8],
    rib: u32,
    height: u32,
    width: u32,
    arena: &mut [u32],
    scratch: &mut [u32],
    output: &mut [u32],
) -> Fitted
    ensures { FitPromise (face_of file.now) levels.now rib (outline height width) (lent arena.old scratch.old output.old) result (lent arena.new scratch.new output.new) }
{
    fitted(
        file,
        levels,
        rib,
        Size { height, width },
        arena,
        scratch,
        output,
    )
    .into()
}
