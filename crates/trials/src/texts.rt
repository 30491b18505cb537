// Rules as text, read and judged, compared with what the explorer found of their forms.
use crate::comparison::count_wrong;
use crate::explorer::graph::Graph;
use crate::explorer::positions::PositionSet;
use crate::forms::work_forms;
use crate::generator::text::{Form, Join, Prefix, Spelled};
use crate::space::Space;
use crate::tally::{Seen, Tally};
use judging::judge::judge;
use routing::network::Network;
use rule_text::read::read_rule;
use std::alloc::AllocError;
use tables::row::Row;

// The sets of 32 rows at ten places.
const MAIN: usize = 320;

// The number of the refusal that a text has for its size: 9 for its bytes, else 5 for its rows, else none. The limits and the
// numbers are not those of the libraries that are tried.
fn size_refusal(rule: &Spelled) -> Option<u8> {
    if rule.text.len() > 200 {
        Some(9)
    } else if rule.rows > 32 {
        Some(5)
    } else {
        None
    }
}

// Counts a text by its last form.
fn count_form(form: Form, tally: &mut Tally) {
    tally.add(Seen::Texts, 1);
    let kind = match form {
        Form::One(Prefix::EveryNext, _) => Seen::TextNext,
        Form::One(Prefix::EveryFuture, _) => Seen::TextFuture,
        Form::One(Prefix::EveryAlways, _) => Seen::TextAlways,
        Form::Two(Join::EveryUntil, _, _) => Seen::TextUntil,
        _ => return,
    };
    tally.add(kind, 1);
}

// Judges the table of a text, and compares its last row at every position.
fn compare_rows<N: Network>(
    net: &N,
    graph: &Graph,
    rows: &[Row],
    held: &PositionSet,
    tally: &mut Tally,
) -> Result<(), AllocError> {
    let mut space = Space::new(graph.heap(), MAIN)?;
    if judge(net, rows, &mut space.main, &mut space.spare).is_ok() {
        let wrong = count_wrong(graph, held, &space.main, rows.len().saturating_sub(1));
        tally.add(Seen::WrongTexts, wrong);
    } else {
        tally.add(Seen::Refusals, 1);
    }
    Ok(())
}

// Counts the positions where a text is true, and those where it is false.
fn count_positions(graph: &Graph, held: &PositionSet, tally: &mut Tally) {
    let count = held.count();
    tally.add(Seen::TextTrue, count);
    tally.add(Seen::TextFalse, graph.size().saturating_sub(count));
}

// Reads the text of a rule and judges the network by it.
fn compare_text<N: Network>(
    net: &N,
    graph: &Graph,
    rule: &Spelled,
    held: &PositionSet,
    tally: &mut Tally,
) -> Result<(), AllocError> {
    let expected = size_refusal(rule);
    match read_rule::<N::Set>(rule.text.as_bytes()) {
        Ok(table) => {
            let rows = table.rows();
            let fits = expected.is_none() && rows.len() == rule.rows;
            tally.add_if(Seen::WrongReadings, !fits);
            count_positions(graph, held, tally);
            compare_rows(net, graph, rows, held, tally)
        }
        Err(fault) => {
            tally.add(Seen::LargeTexts, 1);
            tally.add_if(Seen::WrongReadings, expected != Some(fault.number()));
            Ok(())
        }
    }
}

// Tries the text of a rule, which is its last form.
pub fn try_text<N: Network>(
    net: &N,
    graph: &Graph,
    forms: &[Spelled],
    tally: &mut Tally,
) -> Result<(), AllocError> {
    let done = work_forms(graph, forms)?;
    if let (Some(rule), Some(held)) = (forms.last(), done.last()) {
        count_form(rule.form, tally);
        compare_text(net, graph, rule, held, tally)?;
    }
    Ok(())
}
