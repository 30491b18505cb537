// The trial networks: judges them by the library and prints what it found, a line for each rule, and below a rule that breaks
// the route that shows it.
use conditions::word::Word;
use judging::breaking::show_breaking;
use judging::shown::{Ending, RouteStep, Shown};
use routing::binding::Binding;
use routing::network::Network;
use routing::refusal::Refusal;
use routing::site::SiteTable;
use samples::networks::{
    AF_M1, AG_EF_M1, EF_M1, EF_M1_OR_NOT_C0, L_BINDINGS, L_MARKS, P_BINDINGS, P_MARKS,
};
use std::io;
use tables::row::Row;
use tables::table::MOST_ROWS;
use verdicts::entries::judge_entries;
use verdicts::verdict::{Judgement, Verdict};

// The most places of a trial network.
const PLACES: usize = 3;

// What stands in a list of steps before a route is written.
const NO_STEP: RouteStep = RouteStep {
    place: 0,
    setting: 0,
};

// A route from an entry: its steps, and how it ends.
#[derive(Clone, Copy)]
struct Route<'a> {
    steps: &'a [RouteStep],
    ending: Ending,
}

// What is found of a rule: the judgement, and a route that breaks the rule, if one is shown.
#[derive(Clone, Copy)]
struct Found<'a> {
    judgement: Judgement,
    route: Option<Route<'a>>,
}

// A route that breaks a rule at an entry, written to `steps`.
fn breaking_route<'a, N: Network<Set = Word>>(
    net: &N,
    table: &[Row],
    at: RouteStep,
    main: &mut [Word],
    spare: &mut [Word],
    steps: &'a mut [RouteStep],
) -> Option<Route<'a>> {
    let Shown { count, ending } = show_breaking(net, table, at, main, spare, steps)
        .ok()??
        .shown;
    let steps = steps.get(..count)?;
    Some(Route { steps, ending })
}

// Judges a rule at the entries of a network, and looks for a route that breaks it.
fn find<'a, N: Network<Set = Word>>(
    net: &N,
    table: &[Row],
    steps: &'a mut [RouteStep],
) -> Result<Found<'a>, Refusal> {
    let mut main = [Word(0); MOST_ROWS * PLACES];
    let mut spare = [Word(0); 2 * PLACES];
    let judgement = judge_entries(net, table, &mut main, &mut spare)?;
    let route = match judgement.verdict {
        Verdict::Holds => None,
        Verdict::Breaks(place, setting) => {
            let at = RouteStep { place, setting };
            breaking_route(net, table, at, &mut main, &mut spare, steps)
        }
    };
    Ok(Found { judgement, route })
}

// Prints the places and settings hop by hop, and how the route ends.
fn print_route(rt: &impl Print, route: Route<'_>) -> io::Result<()> {
    for (number, RouteStep { place, setting }) in route.steps.iter().enumerate() {
        let front = if number == 0 {
            "  an order comes in at"
        } else {
            ", goes to"
        };
        print!(rt; "{front} place {place} under setting {setting}")?;
    }
    match route.ending {
        Ending::Reaches => println!(rt; ", and breaks the rule there"),
        Ending::Rests => println!(rt; ", and rests there"),
        Ending::Returns(number) => println!(rt;
            ", and goes round for ever from its position {number} (counted from 0)"
        ),
    }
}

// Prints the verdict on a rule: `N holds ROUNDS` or `N breaks PLACE SETTING ROUNDS`.
fn print_found(rt: &impl Print, number: usize, found: Found<'_>) -> io::Result<()> {
    let rounds = found.judgement.rounds;
    match found.judgement.verdict {
        Verdict::Holds => println!(rt; "{number} holds {rounds}")?,
        Verdict::Breaks(place, setting) => println!(rt;
            "{number} breaks {place} {setting} {rounds}"
        )?,
    }
    match found.route {
        Some(route) => print_route(rt, route),
        None => Ok(()),
    }
}

fn print_refusal(rt: &impl Print, refusal: Refusal) -> io::Result<()> {
    println!(rt; "refused {}", refusal.number())
}

// Prints what is found of each rule, or `refused NUMBER`.
fn print_rules<N: Network<Set = Word>>(
    rt: &impl Print,
    net: &N,
    rules: &[&[Row]],
) -> io::Result<()> {
    for (number, table) in rules.iter().enumerate() {
        let mut steps = [NO_STEP; PLACES + 1];
        match find(net, table, &mut steps) {
            Ok(found) => print_found(rt, number, found)?,
            Err(refusal) => print_refusal(rt, refusal)?,
        }
    }
    Ok(())
}

// Prints the title of a network, and what is found of each of its rules, or `refused NUMBER`.
fn print_network(
    rt: &impl Print,
    title: &str,
    marks: &[u32],
    records: &[Binding<Word>],
    rules: &[&[Row]],
) -> io::Result<()> {
    println!(rt; "{title}")?;
    match SiteTable::open(marks, records) {
        Ok(site) => print_rules(rt, &site, rules),
        Err(refusal) => print_refusal(rt, refusal),
    }
}

// Judges the trial networks P and L.
pub fn print_networks(rt: &impl Print) -> io::Result<()> {
    let title = "Network P: 0 (mark 0) to 1 (mark 1) while c0 is on. Rules: 0 AF m1, 1 EF m1 | !c0";
    let rules: [&[Row]; 2] = [&AF_M1.map(Row::from), &EF_M1_OR_NOT_C0.map(Row::from)];
    print_network(rt, title, &P_MARKS, &P_BINDINGS, &rules)?;
    let title =
        "Network L: 0 (mark 0) to 1 always, 1 to 2 (mark 1) while c0 is on, 1 to 0 while it is off. Rules: 0 AF m1, 1 AG EF m1, 2 EF m1";
    let rules: [&[Row]; 3] = [
        &AF_M1.map(Row::from),
        &AG_EF_M1.map(Row::from),
        &EF_M1.map(Row::from),
    ];
    print_network(rt, title, &L_MARKS, &L_BINDINGS, &rules)
}
