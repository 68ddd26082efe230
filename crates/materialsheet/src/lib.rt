// The material sheet of the smallest face in an opening.
#![tactic(auto)]

ghost use Rattle.std.specs.Prelude.{◌≡◌};
ghost use Rattle.materialsheet.specs.Sheet.{printed_as};

use checks::Check;

mod face;
mod printing;

pub use face::print_face;
pub use printing::sheet;

// What the sheet call answers: the number, and the length of the text, which is 0 where the number is not.
// The number stands beside the rest and in no `Result`, since document 01 says so of every call (docs/DECISIONS.md).
#[derive(Clone, Copy)]
pub struct Printed {
    pub number: u32,
    pub length: u32,
}

impl From<Result<u32, Check>> for Printed {
    ghost from_gives = { λ answer r. r ≡ printed_as answer };

    fn from(answer: Result<u32, Check>) -> Printed {
        match answer {
            Ok(length) => Printed { number: 0, length },
            Err(check) => Printed {
                number: check.number(),
                length: 0,
            },
        }
    }
}
