// Adding lines to a report.
ghost use Rattle.std.specs.Prelude.{◌≤◌, length};
ghost use Rattle.report.specs.Lines.{breaks_line, fault_place, holds_line, refused_line, verdict_line};
ghost use Rattle.report.specs.Outcomes.{Adds};

use crate::outcome::Report;
use plan::fault::PlanFault;
use verdicts::verdict::{Judgement, Verdict};

impl Report {
    // Adds the line of a rule that holds.
    fn add_holds(&mut self, rule: u8, rounds: usize)
        ensures adds { Adds self.old (holds_line rule rounds) self.new }
        ensures short { length (holds_line rule rounds) ≤ 64 }
    {
        self.add_number(rule);
        self.add(b" holds ");
        self.add_number(rounds);
        self.add(b"\n");
    }

    // Adds the line of a rule that breaks.
    fn add_breaks(&mut self, rule: u8, place: usize, setting: u32, rounds: usize)
        ensures adds { Adds self.old (breaks_line rule place setting rounds) self.new }
        ensures short { length (breaks_line rule place setting rounds) ≤ 64 }
    {
        self.add_number(rule);
        self.add(b" breaks ");
        self.add_number(place);
        self.add(b" ");
        self.add_number(setting);
        self.add(b" ");
        self.add_number(rounds);
        self.add(b"\n");
    }

    // Adds the line of a rule.
    pub(crate) fn add_verdict(&mut self, rule: u8, judgement: Judgement)
        ensures adds { Adds self.old (verdict_line rule judgement.verdict judgement.rounds) self.new }
        ensures short { length (verdict_line rule judgement.verdict judgement.rounds) ≤ 64 }
    {
        match judgement.verdict {
            Verdict::Holds => self.add_holds(rule, judgement.rounds),
            Verdict::Breaks(place, setting) => {
                self.add_breaks(rule, place, setting, judgement.rounds)
            }
        }
    }

    // Adds the rule and the byte of a fault.
    fn add_fault_place(&mut self, fault: PlanFault)
        ensures adds { Adds self.old (fault_place fault) self.new }
        ensures short { length (fault_place fault) ≤ 41 }
    {
        match fault {
            PlanFault::InFile(f) => {
                self.add(b"- ");
                self.add_number(f.byte);
            }
            PlanFault::InText(rule, f) => {
                self.add_number(rule);
                self.add(b" ");
                self.add_number(f.byte);
            }
        }
    }

    // Adds the line of a refusal.
    pub(crate) fn add_refusal(&mut self, fault: PlanFault)
        ensures adds { Adds self.old (refused_line fault) self.new }
        ensures short { length (refused_line fault) ≤ 54 }
    {
        self.add(b"refused ");
        self.add_number(fault.number());
        self.add(b" ");
        self.add_fault_place(fault);
        self.add(b"\n");
    }
}
