// The kinds of entries, and of the parts that they end.
ghost use Rattle.std.specs.Prelude.{◌≡◌};
ghost use Rattle.entries.specs.inside.Kinds.{across, byte_of, kind_numbered};

use checks::Check;

// A gauge, or a join of two parts side by side or stacked, with the number that stands for it in a byte or a word.
#[derive(Clone, Copy, PartialEq, Eq)]
pub enum Kind {
    Gauge = 1,
    Beside = 2,
    Stacked = 3,
}

impl Kind {
    // Whether a part of this kind runs the other way than a join of the other kind: stacked parts run by width, all
    // others by height.
    pub fn runs_across(self, join: Kind) -> bool
        ensures { result ≡ across (byte_of self) (byte_of join) }
    {
        (self == Kind::Stacked) != (join == Kind::Stacked)
    }
}

// Check 6: is it one of the three?
impl TryFrom<u32> for Kind {
    type Error = Check;

    ghost try_from_gives = { λ n r. r ≡ kind_numbered n };

    fn try_from(n: u32) -> Result<Self, Check> {
        match n {
            1 => Ok(Kind::Gauge),
            2 => Ok(Kind::Beside),
            3 => Ok(Kind::Stacked),
            _ => Err(Check::Kind),
        }
    }
}

impl TryFrom<u8> for Kind {
    type Error = Check;

    ghost try_from_gives = { λ n r. r ≡ kind_numbered n };

    fn try_from(n: u8) -> Result<Self, Check> {
        Kind::try_from(u32::from(n))
    }
}
