// The calls, and their letters.
use cases_shown::list::End;

// A call that is lent an arena, a scratch and an output.
#[derive(Clone, Copy)]
pub enum Lent {
    List,
    Fit,
    Widths,
}

// A call on an arena, of which more than the file is given.
#[derive(Clone, Copy)]
pub enum Arena {
    Lent(Lent),
    Sheet,
    Read(End),
    Words,
}

#[derive(Clone, Copy)]
pub enum Call {
    Levels,
    Gauge,
    FacesText,
    MaterialText,
    Saved,
    Worded,
    Again,
    Arena(Arena),
}

impl TryFrom<u8> for Call {
    // The letter, which is of no call.
    type Error = u8;

    fn try_from(letter: u8) -> Result<Call, u8> {
        match letter {
            b'l' => Ok(Call::Arena(Arena::Lent(Lent::List))),
            b'f' => Ok(Call::Arena(Arena::Lent(Lent::Fit))),
            b'c' => Ok(Call::Arena(Arena::Lent(Lent::Widths))),
            b'm' => Ok(Call::Arena(Arena::Sheet)),
            b'r' => Ok(Call::Arena(Arena::Read(End::Top))),
            b'b' => Ok(Call::Arena(Arena::Read(End::Low))),
            b'd' => Ok(Call::Arena(Arena::Words)),
            b'v' => Ok(Call::Levels),
            b'g' => Ok(Call::Gauge),
            b't' => Ok(Call::FacesText),
            b'p' => Ok(Call::MaterialText),
            b's' => Ok(Call::Saved),
            b'w' => Ok(Call::Worded),
            b'a' => Ok(Call::Again),
            _ => Err(letter),
        }
    }
}
