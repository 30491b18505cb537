// Examples of the library. Judges the trial networks. Then writes the example plans from their records, compares each with its
// file, and prints its report. Ends with an error where a file differs. It is run in the folder data/, which has the files;
// `examples --write` makes them anew there.
#![tactic(auto)]

mod check;
mod example;
mod networks;
mod trial;
mod warehouse;

use check::{check_example, written};
use example::Example;
use networks::print_networks;
use std::{env, fs};

fn write_example(rt: &HostRuntime, example: &Example) -> anyhow::Result<()> {
    let file = written(rt.alloc(), example)?;
    fs::write(rt, example.path(rt.alloc())?, file.as_slice())?;
    Ok(())
}

// Whether the first argument is `--write`.
fn is_to_write(rt: &HostRuntime) -> anyhow::Result<bool> {
    match env::args(rt)?.nth(1) {
        Some(first) => Ok(first.as_str() == "--write"),
        None => Ok(false),
    }
}

// Writes the files of the examples, where that is asked for.
fn write_asked(rt: &HostRuntime, examples: &[Example]) -> anyhow::Result<()> {
    if is_to_write(rt)? {
        for example in examples {
            write_example(rt, example)?;
        }
    }
    Ok(())
}

// Files are written first, so that this does not hang on what can be printed; why it failed is told behind the networks.
fn main(rt: HostRuntime) -> anyhow::Result<()> {
    let examples = [trial::example(), warehouse::example()];
    let done = write_asked(&rt, &examples);
    print_networks(&rt)?;
    done?;
    for example in &examples {
        check_example(&rt, example)?;
    }
    Ok(())
}
