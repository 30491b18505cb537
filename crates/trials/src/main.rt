// Judges many drawn networks against drawn rule tables, asks for routes, and compares what judging found and
// showed with the explorer, explicit over positions. Then reads texts and reports plan files whose answers are
// worked out by hand. Prints what was tried; ends with an error where anything differs, or where something that
// was to be tried was not.
#![tactic(auto)]

mod boards;
mod comparison;
mod counts;
mod explorer;
mod file_cases;
mod forms;
mod generator;
mod kinds;
mod outcomes;
mod routes;
mod space;
mod spelling;
mod tally;
mod text_cases;
mod texts;
mod trial;
mod tried;

use anyhow::ensure;
use boards::try_boards;
use conditions::plain::Plain;
use conditions::word::Word;
use file_cases::try_files;
use tally::Seen;
use text_cases::try_texts;
use trial::Trial;

const SEED: u64 = 2_718_281_828;

const NETWORKS: usize = 400;

fn try_networks(rt: &(impl AllocGlobal + Print)) -> anyhow::Result<()> {
    let mut trial = Trial::new(rt.alloc(), SEED);
    for _ in 0..NETWORKS {
        trial.try_network::<Plain>()?;
        trial.tally.add(Seen::PlainNetworks, 1);
        trial.try_network::<Word>()?;
        trial.tally.add(Seen::WordNetworks, 1);
    }
    trial.tally.print(rt)?;
    ensure!(!trial.tally.untried(), "something was not tried");
    ensure!(!trial.tally.differs(), "judging and the explorer differ");
    Ok(())
}

fn main(rt: HostRuntime) -> anyhow::Result<()> {
    try_networks(&rt)?;
    try_boards(&rt)?;
    try_texts(&rt)?;
    try_files(&rt)
}
