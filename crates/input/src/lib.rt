// A source of bytes, as standard input is, read to its end or until a buffer is full, and how that ended.
#![tactic(auto)]

#[cfg(test)]
mod tests;

ghost use Rattle.std.specs.Prelude.{◌≡◌, length};
ghost use Rattle.std.specs.Io.{ReadsAtMost};
ghost use Rattle.input.specs.Counts.{IsPrefixLen};
ghost use Rattle.input.specs.Outcome.{outcome_of, Stopped, arrived};

use std::io;
use std::io::{ErrorKind, Read};

// The most times that a read is begun again. A loop has to end, and nothing says that interrupts do; no run uses it up.
const TRIES: u64 = 1_000_000_000;

// What came: so many bytes at the start of a buffer, and how the reading of them ended.
#[derive(Clone, Copy)]
pub struct Input {
    pub length: usize,
    pub outcome: Outcome,
}

// How a reading ended: the input is whole; the buffer is full, and what may follow is cut off; or a read failed.
#[derive(Clone, Copy)]
pub enum Outcome {
    Whole,
    CutOff,
    Failed(io::Error),
}

impl Outcome {
    // How the reading ended, by what the source answered last.
    #[tactic(auto, unfolding(crate::specs::Outcome::outcome_of))]
    fn of(last: io::Result<usize>) -> Outcome
        ensures { result ≡ outcome_of last }
    {
        match last {
            Ok(0) => Outcome::Whole,
            Ok(_) => Outcome::CutOff,
            Err(error) => Outcome::Failed(error),
        }
    }
}

impl Input {
    // How many bytes came, where they may be taken for the input: all of it, or as much as the buffer takes. Else why not.
    #[tactic(auto, unfolding(crate::specs::Outcome::arrived))]
    pub fn came(&self) -> io::Result<usize>
        ensures { result ≡ arrived self.now.outcome self.now.length }
    {
        match self.outcome {
            Outcome::Whole | Outcome::CutOff => Ok(self.length),
            Outcome::Failed(error) => Err(error),
        }
    }
}

// One read, begun again where a signal interrupts it.
fn read_some<R: Read>(source: &mut R, room: &mut [u8]) -> io::Result<usize>
    ensures { ReadsAtMost result room.new }
{
    for _ in 0..TRIES {
        match source.read(room) {
            Err(error) if error.kind() == ErrorKind::Interrupted => {}
            answer => return answer,
        }
    }
    source.read(room)
}

// Reads until the buffer is full, the input ends or a read fails.
#[tactic(auto, unfolding(crate::specs::Outcome::outcome_of, crate::specs::Outcome::Stopped))]
pub fn read_input<R: Read>(source: &mut R, room: &mut [u8]) -> Input
    ensures prefix_len { IsPrefixLen result.length room.new }
    ensures stopped { Stopped result.outcome result.length (length room.new) }
{
    let mut length = 0;
    // A read gives any number of bytes, so no range counts the reads.
    while length < room.len() {
        match read_some(source, &mut room[length..]) {
            Ok(count) if count > 0 => length += count,
            last => {
                let outcome = Outcome::of(last);
                return Input { length, outcome };
            }
        }
    }
    let outcome = Outcome::CutOff;
    Input { length, outcome }
}
