// Judges the rules of the plan that the command line names.
#![tactic(auto)]

#[cfg(test)]
mod tests;

use console::run::run;
use std::process::ExitCode;

fn main(rt: HostRuntime) -> ExitCode {
    run(&rt)
}
