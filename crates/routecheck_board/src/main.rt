// Plays a script on a board, as routecheck does. A crate has one stored run, with one command line: here a board in front of
// the warehouse.
#![tactic(auto)]

use console::run::run;
use std::process::ExitCode;

fn main(rt: HostRuntime) -> ExitCode {
    run(&rt)
}
