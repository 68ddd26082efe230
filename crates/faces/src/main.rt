// Document 01: "A program `faces` reads a file from standard input, fits it to 64,000 by 64,000 and prints as below, or
// one line such as `refused 4`."
#![tactic(auto)]

use filter::Faces;
use std::process::ExitCode;

fn main(rt: HostRuntime) -> ExitCode {
    filter::run::<Faces, _>(&rt, rt.stdin())
}
