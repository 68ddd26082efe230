// The smallest face of a taken file, picked and placed, for the calls that have made their checks.
#![tactic(auto)]

ghost use Rattle.std.specs.Prelude.{◌≡◌};
ghost use Rattle.placing.specs.Found.{fitted_as};

use checks::Check;

mod face;

pub use face::place_face;

// A face that is placed: the height and the width of the layout that was written, their product, and the length of the
// root's list.
#[derive(Clone, Copy)]
pub struct Placed {
    pub height: u32,
    pub width: u32,
    pub area: u32,
    pub count: u32,
}

// What the fit call answers: the number, and of the layout that was written its height, its width and their product,
// and the length of the root's list. They are 0 where the number is not.
// The number stands beside the rest and in no `Result`, since document 01 says so of every call (docs/DECISIONS.md).
#[derive(Clone, Copy)]
pub struct Fitted {
    pub number: u32,
    pub height: u32,
    pub width: u32,
    pub area: u32,
    pub count: u32,
}

impl From<Result<Placed, Check>> for Fitted {
    ghost from_gives = { λ answer r. r ≡ fitted_as answer };

    fn from(answer: Result<Placed, Check>) -> Fitted {
        match answer {
            Ok(face) => Fitted {
                number: 0,
                height: face.height,
                width: face.width,
                area: face.area,
                count: face.count,
            },
            Err(check) => Fitted {
                number: check.number(),
                height: 0,
                width: 0,
                area: 0,
                count: 0,
            },
        }
    }
}
