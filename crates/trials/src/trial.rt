// Drawn networks, each tried with drawn tables and texts.
use crate::comparison::{compare_main, compare_rounds, compare_verdict};
use crate::explorer::graph::Graph;
use crate::explorer::rows::{Found, Rows};
use crate::generator::network::draw_network;
use crate::generator::random::Random;
use crate::generator::sets::Draw;
use crate::generator::table::draw_table;
use crate::generator::text::draw_rule;
use crate::kinds::count_kinds;
use crate::routes::compare_routes;
use crate::space::Space;
use crate::tally::{Seen, Tally};
use crate::texts::try_text;
use conditions::set::ConditionSet;
use judging::judge::judge;
use routing::network::Network;
use routing::site::SiteTable;
use std::alloc::{AllocError, Global};
use tables::row::{Operation, Row};
use verdicts::entries::judge_entries;

const TABLES: usize = 5;

const TEXTS: usize = 5;

// More than the sets of eight rows at ten places.
const MAIN: usize = 96;

// Counts the rows by operation, and those of two and more, and of five and more rounds.
fn count_rows(rows: &[Found], tally: &mut Tally) {
    for found in rows {
        let kind = match found.operation {
            Operation::Yes => Seen::YesRows,
            Operation::Mark(_) => Seen::MarkRows,
            Operation::Condition(_) => Seen::ConditionRows,
            Operation::Not(_) => Seen::NotRows,
            Operation::And(_, _) => Seen::AndRows,
            Operation::Or(_, _) => Seen::OrRows,
            Operation::Next(_) => Seen::NextRows,
            Operation::Until(_, _) => {
                tally.add_if(Seen::LongUntilRows, found.rounds >= 2);
                Seen::UntilRows
            }
            Operation::Always(_) => {
                tally.add_if(Seen::LongAlwaysRows, found.rounds >= 2);
                Seen::AlwaysRows
            }
        };
        tally.add(kind, 1);
        tally.add_if(Seen::LongestRows, found.rounds >= 5);
        tally.add(Seen::Rows, 1);
    }
}

// Judges a network against a table in both ways that judging has, asks for routes, and compares.
fn try_table<N: Network>(
    net: &N,
    graph: &Graph,
    operations: &[Operation],
    tally: &mut Tally,
) -> Result<(), AllocError> {
    let rows = Rows::of(graph, operations)?;
    let table: Vec<Row> = operations
        .iter()
        .map(|op| Row::from(*op))
        .collect(graph.heap())?;
    let mut space = Space::new(graph.heap(), MAIN)?;
    match judge(net, &table, &mut space.main, &mut space.spare) {
        Ok(rounds) => {
            compare_main(&rows, &space.main, tally);
            compare_rounds(&rows, rounds, tally);
        }
        Err(_) => tally.add(Seen::Refusals, 1),
    }
    match judge_entries(net, &table, &mut space.main, &mut space.spare) {
        Ok(judgement) => {
            compare_rounds(&rows, judgement.rounds, tally);
            compare_verdict(&rows, judgement.verdict, tally);
        }
        Err(_) => tally.add(Seen::Refusals, 1),
    }
    count_rows(&rows.found, tally);
    compare_routes(net, &table, &rows, &mut space, tally)
}

// What is drawn, and the counts of what was tried and of what differed.
#[derive(Drop)]
pub struct Trial {
    heap: Global,
    random: Random,
    pub tally: Tally,
}

impl Trial {
    pub fn new(heap: Global, seed: u64) -> Trial {
        Trial {
            heap,
            random: Random::new(seed),
            tally: Tally::new(),
        }
    }

    // Tries a network with drawn tables and texts.
    fn try_tables<N: Network>(&mut self, net: &N) -> Result<(), AllocError> {
        let graph = Graph::of(self.heap, net)?;
        count_kinds(net, &graph, &mut self.tally);
        for _ in 0..TABLES {
            let table = draw_table(self.heap, &mut self.random, N::Set::conditions())?;
            try_table(net, &graph, &table, &mut self.tally)?;
            self.tally.add(Seen::Tables, 1);
        }
        for _ in 0..TEXTS {
            let forms = draw_rule(self.heap, &mut self.random, N::Set::conditions())?;
            try_text(net, &graph, &forms, &mut self.tally)?;
        }
        Ok(())
    }

    // Draws a network and tries it.
    pub fn try_network<S: Draw>(&mut self) -> Result<(), AllocError> {
        let drawn = draw_network::<S>(self.heap, &mut self.random)?;
        match SiteTable::open(&drawn.marks, &drawn.bindings) {
            Ok(site) => self.try_tables(&site),
            Err(_) => {
                self.tally.add(Seen::Refusals, 1);
                Ok(())
            }
        }
    }
}
