// The report of a plan file.
ghost use Rattle.std.specs.Prelude.{◌≡◌, ◌≤◌, length, Some, None};
ghost use Rattle.plan.specs.Contents.{plan_net};
ghost use Rattle.plan.specs.Files.{file_plan};
ghost use Rattle.report.specs.Lines.{refused_line, RuleLines};
ghost use Rattle.report.specs.Outcomes.{report_text, FrontReport, ReportOf};

use crate::outcome::Report;
use crate::rule::{MAIN_ROOM, SPARE_ROOM, add_rule};
use conditions::word::Word;
use plan::fault::PlanFault;
use plan::file::PlanFile;
use plan::oversize::oversize_fault;

// The report of a refusal.
fn refusal_report(fault: PlanFault) -> Report
    ensures text { report_text result ≡ refused_line fault }
    ensures fault { result.fault ≡ Some fault }
{
    let mut report = Report::new(Some(fault));
    report.add_refusal(fault);
    report
}

// The report of a plan: the lines of its rules, in order.
fn plan_report(plan: &PlanFile) -> Report
    requires { length (file_plan plan.now).texts ≤ 8 }
    ensures lines { RuleLines (plan_net (file_plan plan.now)) 0 (file_plan plan.now).texts
        (report_text result) }
    ensures fault { result.fault ≡ None }
{
    let mut report = Report::new(None);
    let mut main = [Word(0); MAIN_ROOM];
    let mut spare = [Word(0); SPARE_ROOM];
    for rule in 0..plan.rules() {
        if let Some(table) = plan.table(rule) {
            add_rule(plan, &table, rule as u8, &mut main, &mut spare, &mut report);
        }
    }
    report
}

// The report of a file: the verdict on each rule of its plan, or its refusal.
pub fn report(bytes: &[u8]) -> Report
    ensures { ReportOf bytes.now result }
{
    match PlanFile::open(bytes) {
        Ok(plan) => plan_report(&plan),
        Err(fault) => refusal_report(fault),
    }
}

// The report of a file of which `front` is kept and `behind` bytes behind it are not. Absent where there are such bytes
// and the front is shorter than the longest plan, or the file's length passes the largest number.
pub fn report_front(front: &[u8], behind: usize) -> Option<Report>
    ensures { FrontReport front.now behind result }
{
    if behind == 0 {
        return Some(report(front));
    }
    let fault = oversize_fault(front, behind)?;
    Some(refusal_report(fault.into()))
}
