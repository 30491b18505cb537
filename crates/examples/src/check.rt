// Writing an example by the library, and comparing it with its file.
use crate::example::Example;
use anyhow::{Context, ensure};
use conditions::word::Word;
use plan::oversize::LONGEST;
use plan::write::write_plan;
use report::file::report;
use routing::binding::Binding;
use routing::site::SiteTable;
use std::alloc::Global;
use std::{fs, str};

// Writes a plan to the front of `file`; answers how many bytes, where the records are a plan.
fn write_records(
    marks: &[u32],
    records: &[Binding<Word>],
    rules: &[&[u8]],
    file: &mut [u8],
) -> Option<usize> {
    let site = SiteTable::open(marks, records).ok()?;
    write_plan(&site, rules, file).ok()
}

// The bytes of the example's file.
pub fn written(heap: Global, example: &Example) -> anyhow::Result<Vec<u8>> {
    let records = example.records(heap)?;
    let mut file = vec![in heap; 0u8; LONGEST]?;
    let length = write_records(example.marks, &records, example.rules, &mut file).context(
        "the records are no plan",
    )?;
    file.truncate(length);
    Ok(file)
}

// Prints the report of a file, each line indented.
fn print_report(rt: &impl Print, file: &[u8]) -> anyhow::Result<()> {
    let report = report(file);
    for line in str::from_utf8(report.text())?.lines() {
        println!(rt; "  {line}")?;
    }
    Ok(())
}

// Compares what is written with the file, and prints what the plan's rules come to.
pub fn check_example(rt: &HostRuntime, example: &Example) -> anyhow::Result<()> {
    let file = written(rt.alloc(), example)?;
    let kept = fs::read(rt, example.path(rt.alloc())?)?;
    let same = file == kept;
    let found = if same {
        "as the file has them"
    } else {
        "and the file has others"
    };
    println!(rt; "{}: {} bytes, {found}", example.name, file.len())?;
    ensure!(same, "a plan differs from its file");
    print_report(rt, &kept)
}
