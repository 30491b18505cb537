// Why a plan is refused, and where.
ghost use Rattle.std.specs.Prelude.{◌≡◌};
ghost use Rattle.plan.specs.declared.fault.PlanFault.TheVariants.{InFile};
ghost use Rattle.plan.specs.declared.fault.WriteFault.TheVariants.{BadPlan};
ghost use Rattle.plan.specs.Faults.{file_fault_number, plan_fault_number, write_fault_number};

use rule_text::fault::Fault;

#[derive(Clone, Copy, Debug, PartialEq, Eq)]
pub enum FileFaultKind {
    // A contents entry has another kind or start than it should.
    BadContents = 6,
    // The file is cut, or too long.
    WrongLength = 7,
    // A binding end is not a place.
    NoPlace = 8,
    // A count or a text's length is over its limit.
    OverLimit = 9,
}

// A fault of the file outside the texts, with the byte of the first wrong field, or the file's length where that is wrong.
#[derive(Clone, Copy, Debug, PartialEq, Eq)]
pub struct FileFault {
    pub kind: FileFaultKind,
    pub byte: usize,
}

#[derive(Clone, Copy, Debug, PartialEq, Eq)]
pub enum PlanFault {
    InFile(FileFault),
    // The text of the rule with this number has this fault, whose byte is one of the text.
    InText(usize, Fault),
}

// Why a plan is not written.
#[derive(Clone, Copy, Debug, PartialEq, Eq)]
pub enum WriteFault {
    // It is no plan: over a limit, at the byte that the field would have, or a text is no rule.
    BadPlan(PlanFault),
    // The output is shorter than the file.
    TooShort,
}

impl FileFault {
    // The number of the refusal.
    pub fn number(&self) -> u8
        ensures { result ≡ file_fault_number self.now.kind }
    {
        self.kind as u8
    }
}

impl From<FileFault> for PlanFault {
    ghost from_gives = { λ f e. e ≡ InFile f };

    fn from(fault: FileFault) -> PlanFault {
        PlanFault::InFile(fault)
    }
}

impl PlanFault {
    // The number of the refusal.
    pub fn number(&self) -> u8
        ensures { result ≡ plan_fault_number self.now }
    {
        match self {
            PlanFault::InFile(fault) => fault.number(),
            PlanFault::InText(_, fault) => fault.number(),
        }
    }
}

impl From<FileFault> for WriteFault {
    ghost from_gives = { λ f e. e ≡ BadPlan (InFile f) };

    fn from(fault: FileFault) -> WriteFault {
        WriteFault::BadPlan(PlanFault::InFile(fault))
    }
}

impl From<PlanFault> for WriteFault {
    ghost from_gives = { λ f e. e ≡ BadPlan f };

    fn from(fault: PlanFault) -> WriteFault {
        WriteFault::BadPlan(fault)
    }
}

impl WriteFault {
    // The number of the refusal.
    pub fn number(&self) -> u8
        ensures { result ≡ write_fault_number self.now }
    {
        match self {
            WriteFault::BadPlan(fault) => fault.number(),
            WriteFault::TooShort => 14,
        }
    }
}
