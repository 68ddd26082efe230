// A program `material` reads a file from standard input, fits it to 64,000 by 64,000 with rib 0, as `faces` does, and
// prints Paper 7's material sheet of that face, or one line such as `refused 4`.
#![tactic(auto)]

use filter::Material;
use std::process::ExitCode;

fn main(rt: HostRuntime) -> ExitCode {
    filter::run::<Material, _>(&rt, rt.stdin())
}
