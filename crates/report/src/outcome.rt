// What is reported of a plan file: the bytes to print, and the fault of a file that is refused.
ghost use Rattle.std.specs.Prelude.{◌≡◌, ◌≤◌, [], length};

use arrayvec::ArrayVec;
use itoa::{Buffer, Integer};
use plan::fault::PlanFault;

// The room of a report: for eight lines of at most 64 bytes, or a refusal of at most 54.
const ROOM: usize = 512;

#[derive(Drop)]
pub struct Report {
    pub(crate) bytes: ArrayVec<u8, ROOM>,
    pub(crate) fault: Option<PlanFault>,
}

impl Report {
    ghost use Rattle.report.specs.Outcomes.{report_text, Adds};

    // A report that prints nothing.
    pub(crate) fn new(fault: Option<PlanFault>) -> Report
        ensures text { report_text result ≡ [] }
        ensures fault { result.fault ≡ fault }
    {
        Report {
            bytes: ArrayVec::new(),
            fault,
        }
    }

    // Adds bytes. What does not fit is left out.
    pub(crate) fn add(&mut self, bytes: &[u8])
        ensures { Adds self.old bytes.now self.new }
    {
        let _ = self.bytes.try_extend_from_slice(bytes);
    }

    // Adds a number in decimal.
    pub(crate) fn add_number<I: Integer>(&mut self, n: I)
        ensures adds { Adds self.old (I.text n) self.new }
        ensures short { length (I.text n) ≤ I.MAX_STR_LEN }
    {
        let mut buffer = Buffer::new();
        self.add(buffer.format(n).as_bytes());
    }

    // The bytes to print.
    pub fn text(&self) -> &[u8]
        ensures text { result.now ≡ report_text self.now }
        ensures fits { length result.now ≤ 512 }
    {
        self.bytes.as_slice()
    }

    // The fault, where the file is refused.
    pub fn fault(&self) -> Option<PlanFault>
        ensures { result ≡ self.now.fault }
    {
        self.fault
    }
}
