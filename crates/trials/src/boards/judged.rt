// Rules judged by the explorer at the entries of a network.
use crate::boards::lists::Lists;
use crate::boards::sets::Build;
use crate::explorer::graph::Graph;
use crate::explorer::rows::{Rows, failing_entry};
use routing::site::SiteTable;
use std::alloc::{AllocError, Global};
use tables::row::Operation;

#[derive(Clone, Copy)]
pub enum Judged {
    // Each rule holds at every entry under every setting: the rounds.
    AllHold(usize),
    // The first rule that breaks, its least failing entry and the least failing setting there.
    Breaks(usize, usize, u32),
    // The lists are no network.
    NoNetwork,
}

// The rounds of all rows.
fn rounds_of(rows: &Rows) -> usize {
    let mut sum = 0usize;
    for row in &rows.found {
        sum = sum.saturating_add(row.rounds);
    }
    sum
}

// The least position at an entry where the last row fails.
fn failing(rows: &Rows) -> Option<usize> {
    match rows.found.last() {
        Some(last) => failing_entry(rows.graph, &last.held),
        None => None,
    }
}

// Judges rules in their order, up to the first that breaks.
pub fn judge_all<S: Build>(
    heap: Global,
    net: &Lists<S>,
    rules: &[Vec<Operation>],
) -> Result<Judged, AllocError> {
    let Ok(site) = SiteTable::open(&net.marks, &net.bindings) else {
        return Ok(Judged::NoNetwork);
    };
    let graph = Graph::of(heap, &site)?;
    let mut rounds = 0usize;
    for (rule, table) in rules.iter().enumerate() {
        let rows = Rows::of(&graph, table)?;
        if let Some(at) = failing(&rows) {
            let (place, setting) = (graph.place_of(at), graph.setting_of(at));
            return Ok(Judged::Breaks(rule, place, setting));
        }
        rounds = rounds.saturating_add(rounds_of(&rows));
    }
    Ok(Judged::AllHold(rounds))
}
