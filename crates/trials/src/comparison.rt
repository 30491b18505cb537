// What judging wrote and answered, compared with what the explorer found.
use crate::explorer::graph::Graph;
use crate::explorer::positions::PositionSet;
use crate::explorer::rows::{Rows, failing_entry};
use crate::tally::{Seen, Tally};
use conditions::set::ConditionSet;
use verdicts::verdict::Verdict;

// Whether what judging wrote for a place differs at a position of it from whether the row holds there.
fn is_wrong<S: ConditionSet>(
    graph: &Graph,
    held: &PositionSet,
    written: Option<&S>,
    at: usize,
) -> bool {
    match written {
        Some(set) => set.contains(graph.setting_of(at)) != held.contains(at),
        None => true,
    }
}

// At how many positions the sets that judging wrote for a row, one for each place, differ from those where the row holds.
pub fn count_wrong<S: ConditionSet>(
    graph: &Graph,
    held: &PositionSet,
    main: &[S],
    row: usize,
) -> usize {
    let start = row.saturating_mul(graph.places());
    (0..graph.size())
        .filter(|&at| {
            let written = main.get(start.saturating_add(graph.place_of(at)));
            is_wrong(graph, held, written, at)
        })
        .count()
}

// Counts the positions of a row, those where it is true, and those where it is false.
fn count_positions(graph: &Graph, held: &PositionSet, tally: &mut Tally) {
    let count = held.count();
    let failed = graph.size().saturating_sub(count);
    tally.add(Seen::Positions, graph.size());
    tally.add(Seen::TruePositions, count);
    tally.add(Seen::FalsePositions, failed);
    tally.add_if(Seen::MixedRows, count > 0 && failed > 0);
}

// Compares every row at every position with the main list that judging wrote, and what lies behind the table's part of it,
// which judging leaves as it was: all settings.
pub fn compare_main<S: ConditionSet>(rows: &Rows, main: &[S], tally: &mut Tally) {
    let graph = rows.graph;
    for (row, found) in rows.found.iter().enumerate() {
        tally.add(
            Seen::WrongPositions,
            count_wrong(graph, &found.held, main, row),
        );
        count_positions(graph, &found.held, tally);
    }
    let all = S::all();
    let written = rows.found.len().saturating_mul(graph.places());
    for set in main.iter().skip(written) {
        tally.add_if(Seen::WrongRest, !set.same_members(&all));
    }
}

// Compares the rounds that judging answered with the sum over the rows.
pub fn compare_rounds(rows: &Rows, rounds: usize, tally: &mut Tally) {
    let mut sum = 0usize;
    for row in &rows.found {
        sum = sum.saturating_add(row.rounds);
        tally.add_if(Seen::WrongRounds, !row.agrees);
    }
    tally.add_if(Seen::WrongRounds, sum != rounds);
}

// The verdict on the last row at the entries.
fn expected_verdict(rows: &Rows) -> Verdict {
    let graph = rows.graph;
    let Some(last) = rows.found.last() else {
        return Verdict::Holds;
    };
    match failing_entry(graph, &last.held) {
        Some(at) => Verdict::Breaks(graph.place_of(at), graph.setting_of(at)),
        None => Verdict::Holds,
    }
}

// Compares the verdict with the one on the last row at the entries.
pub fn compare_verdict(rows: &Rows, verdict: Verdict, tally: &mut Tally) {
    let holds = verdict == Verdict::Holds;
    tally.add_if(Seen::Holds, holds);
    tally.add_if(Seen::Breaks, !holds);
    tally.add_if(Seen::WrongVerdicts, verdict != expected_verdict(rows));
}
