// `faces` again, for the gate: a program is run on one stored input, and this one on a file longer than the program
// reads.
#![tactic(auto)]

use filter::Faces;
use std::process::ExitCode;

fn main(rt: HostRuntime) -> ExitCode {
    filter::run::<Faces, _>(&rt, rt.stdin())
}
