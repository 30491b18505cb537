// Judges the rules of a plan, as routecheck does. A crate has one stored run, with one command line and one input:
// here no words, and the trial plan from standard input.
#![tactic(auto)]

use console::run::run;
use std::process::ExitCode;

fn main(rt: HostRuntime) -> ExitCode {
    run(&rt)
}
