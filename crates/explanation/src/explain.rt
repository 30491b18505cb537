// The report of a plan for people: below the line of each rule its text, its words, and the route that breaks it.
use crate::breaking::add_breaking;
use crate::text::Printable;
use crate::words::Worded;
use crate::work::Work;
use conditions::word::Word;
use judging::shown::RouteStep;
use plan::file::PlanFile;
use routing::network::Network;
use std::alloc::{AllocError, Global};
use tables::row::Row;
use verdicts::verdict::Verdict;

// Adds whether a rule holds, and why it breaks if it does.
fn add_verdict<N: Network<Set = Word>>(
    out: &mut String,
    net: &N,
    work: &mut Work,
    rows: &[Row],
) -> Result<(), AllocError> {
    match work.judge(net, rows) {
        Ok(judgement) => match judgement.verdict {
            Verdict::Holds => out.push_str("  It holds at every entry under every setting.\n"),
            Verdict::Breaks(place, setting) => {
                let at = RouteStep { place, setting };
                add_breaking(out, at, work.breaking_route(net, rows, at))
            }
        },
        Err(refusal) => writeln!(out, "  It is not judged (refusal {}).", refusal.number()),
    }
}

// Adds what a rule says, and why it breaks if it does.
fn add_words<N: Network<Set = Word>>(
    out: &mut String,
    net: &N,
    work: &mut Work,
    rows: &[Row],
) -> Result<(), AllocError> {
    writeln!(out, "  It says: {}.", Worded(rows))?;
    add_verdict(out, net, work, rows)
}

// Adds the text of a rule, and what explains it.
fn add_rule(
    out: &mut String,
    plan: &PlanFile,
    work: &mut Work,
    number: usize,
) -> Result<(), AllocError> {
    if let Some(text) = plan.text(number) {
        writeln!(out, "  Rule: {}", Printable(text))?;
    }
    match plan.table(number) {
        Some(table) => add_words(out, plan, work, table.rows()),
        None => Ok(()),
    }
}

// The lines of the report of a plan, each with what explains it.
fn explained_lines(heap: Global, plan: &PlanFile, lines: &str) -> Result<String, AllocError> {
    let mut out = String::new(heap);
    let mut work = Work::new();
    for (rule, line) in lines.lines().enumerate() {
        writeln!(out, "{line}")?;
        add_rule(&mut out, plan, &mut work, rule)?;
    }
    Ok(out)
}

// The lines of the report of a plan file, each with what explains it.
pub fn explained(heap: Global, file: &[u8], report: &[u8]) -> Result<String, AllocError> {
    let lines = String::from_utf8_lossy(heap, report)?;
    match PlanFile::open(file) {
        Ok(plan) => explained_lines(heap, &plan, &lines),
        Err(_) => Ok(lines),
    }
}
