// Runs cases of any call from standard input, the stored ones and random ones. cases_run has the form of a case.
#![tactic(auto)]

fn main(rt: HostRuntime) {
    cases_run::run(&rt);
}
