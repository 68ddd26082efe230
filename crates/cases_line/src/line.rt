// The line of a case, from its name on.
ghost use Rattle.std.specs.Prelude.{◌≤◌, length};

use cases_shown::print::put;

// What is left of a line.
#[derive(Clone, Copy)]
pub struct Line<'a> {
    pub rest: &'a [u8],
}

impl<'a> Line<'a> {
    // Prints the name of a case, which ends with a colon, and answers what stands after it. Without a colon all is the name.
    pub fn after_name(out: &impl Print, text: &'a [u8]) -> Line<'a> {
        let colon = text.iter().position(|byte| *byte == b':');
        let end = colon.map_or(text.len(), |at| at + 1);
        let (name, rest) = text.split_at(end);
        put(out, name);
        put(out, b" ");
        Line { rest }
    }

    // Passes over a sign where it stands next, and says whether it does.
    pub(crate) fn skip(&mut self, sign: u8) -> bool
        ensures { length self.new.rest.now ≤ length self.old.rest.now }
    {
        let Some(rest) = self.rest.strip_prefix(&[sign]) else {
            return false;
        };
        self.rest = rest;
        true
    }

    // The decimal number that stands next, cut to 32 bits: 0 where no digit does.
    pub fn number(&mut self) -> u32
        ensures { length self.new.rest.now ≤ length self.old.rest.now }
    {
        let end = self.rest.iter().position(|byte| !byte.is_ascii_digit());
        let (digits, rest) = self.rest.split_at(end.unwrap_or(self.rest.len()));
        self.rest = rest;
        digits
            .iter()
            .fold(0, |value, digit| with_digit(value, *digit))
    }

    // The number after the sign that stands next.
    pub(crate) fn next_number(&mut self) -> u32
        ensures { length self.new.rest.now ≤ length self.old.rest.now }
    {
        if let Some((_, rest)) = self.rest.split_first() {
            self.rest = rest;
        }
        self.number()
    }
}

// A number with one digit more, cut to 32 bits.
fn with_digit(value: u32, digit: u8) -> u32 {
    let next = u32::from(digit.wrapping_sub(b'0'));
    value.wrapping_mul(10).wrapping_add(next)
}
