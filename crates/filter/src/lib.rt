// The programs `faces` and `material` as Unix filters: a face file from standard input, its text to standard output, and
// what fails to standard error.
#![tactic(auto)]

mod reply;

use input::read_input;
pub use reply::{Faces, Fault, Material, Program, Text};
use std::io::Read;
use std::process::ExitCode;

// How many bytes of a file are read at most.
const MOST: usize = 4_096;

// Prints what a program says of standard input. Where a read fails nothing is printed.
//
// Of a file longer than the buffer no more is read, as by `head`, so a program that goes on writing it is ended by SIGPIPE.
fn answer<P: Program>(out: &impl Print, stdin: &mut impl Read) -> Result<(), Fault> {
    let mut room = [0u8; MOST];
    let input = read_input(stdin, &mut room);
    P::print(out, input, &room)
}

// Runs a program. What fails is said in a line, with the status of a failure.
pub fn run<P: Program, R: Read + Drop>(rt: &(impl Print + Eprint), mut stdin: R) -> ExitCode {
    let Err(fault) = answer::<P>(rt, &mut stdin) else {
        return ExitCode::SUCCESS;
    };
    let _ = match fault {
        Fault::Input(error) => eprintln!(rt; "{}: standard input: {error}", P::NAME),
        Fault::Output(error) => eprintln!(rt; "{}: standard output: {error}", P::NAME),
    };
    ExitCode::FAILURE
}
