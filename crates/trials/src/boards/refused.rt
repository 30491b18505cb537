// Why a call is refused, by the second board: each call's tests in their order.
use crate::boards::second::Second;
use crate::boards::sets::{Build, settings};
use paper::change::Change;
use paper::numbers::Numbers;
use paper::own::OwnBinding;
use paper::room::Room;
use routing::refusal::Refusal;

const MOST_OWN: usize = 128;

const MOST_RULES: usize = 8;

#[derive(Clone, Copy, PartialEq, Eq)]
pub enum Why {
    NoPlace,
    NoOwnEnd,
    NoBinding,
    NoCondition,
    ProposalOpen,
    BindingsFull,
    NoSerial,
    BadTable,
    ShortMain,
    ShortSpare,
    ShortSteps,
    RulesFull,
    NoneOpen,
    OtherBoard,
    OtherSerial,
}

impl Why {
    // The refusal that it is answered with.
    pub fn refusal(self) -> Refusal {
        match self {
            Why::NoPlace => Refusal::NoPlace,
            Why::NoOwnEnd => Refusal::NoOwnEnd,
            Why::NoBinding => Refusal::NoBinding,
            Why::NoCondition => Refusal::NoCondition,
            Why::ProposalOpen => Refusal::ProposalOpen,
            Why::BindingsFull => Refusal::BindingsFull,
            Why::NoSerial => Refusal::NoSerial,
            Why::BadTable => Refusal::BadTable,
            Why::ShortMain | Why::ShortSpare | Why::ShortSteps => Refusal::TooShort,
            Why::RulesFull => Refusal::RulesFull,
            Why::NoneOpen | Why::OtherBoard | Why::OtherSerial => Refusal::WrongTicket,
        }
    }
}

impl<S: Build> Second<S> {
    // The numbers name conditions of the network alone.
    fn refuse_numbers(&self, on: u16, off: u16) -> Option<Why> {
        let settings = settings::<S>();
        (u32::from(on) >= settings || u32::from(off) >= settings).then_some(Why::NoCondition)
    }

    fn refuse_binding(&self, binding: &OwnBinding) -> Option<Why> {
        let (from, to) = (usize::from(binding.from), usize::from(binding.to));
        let least = from.min(to);
        let most = from.max(to);
        if most >= self.marks.len() {
            Some(Why::NoPlace)
        } else if least >= self.own_places {
            Some(Why::NoOwnEnd)
        } else {
            self.refuse_numbers(binding.on, binding.off)
        }
    }

    // The tests of a change by itself.
    fn refuse_change(&self, change: Change) -> Option<Why> {
        match change {
            Change::Bind(binding) => self.refuse_binding(&binding),
            Change::Unbind(i) => (i >= self.own.len()).then_some(Why::NoBinding),
            Change::Recondition(i, on, off) => {
                if i >= self.own.len() {
                    Some(Why::NoBinding)
                } else {
                    self.refuse_numbers(on, off)
                }
            }
        }
    }

    fn refuse_full(&self, change: Change) -> Option<Why> {
        let binds = matches!(change, Change::Bind(_));
        (binds && self.own.len() >= MOST_OWN).then_some(Why::BindingsFull)
    }

    fn refuse_open(&self) -> Option<Why> {
        self.pending.is_some().then_some(Why::ProposalOpen)
    }

    pub fn refuse_ticket(&self, numbers: Numbers) -> Option<Why> {
        if self.pending.is_none() {
            Some(Why::NoneOpen)
        } else if numbers.board != self.number {
            Some(Why::OtherBoard)
        } else {
            (numbers.serial != self.last).then_some(Why::OtherSerial)
        }
    }

    // The lengths that lists need for tables of so many rows.
    pub fn need(&self, rows: usize) -> Room {
        let places = self.marks.len();
        Room {
            main: rows.saturating_mul(places),
            spare: places.saturating_mul(2),
            steps: places.saturating_add(1),
        }
    }

    fn refuse_room(&self, rows: usize, room: Room) -> Option<Why> {
        let need = self.need(rows);
        if room.main < need.main {
            Some(Why::ShortMain)
        } else if room.spare < need.spare {
            Some(Why::ShortSpare)
        } else {
            (room.steps < need.steps).then_some(Why::ShortSteps)
        }
    }

    // The rows of the largest rule; 0 where there is none.
    pub fn most_rows(&self) -> usize {
        let mut most = 0;
        for rule in &self.rules {
            most = most.max(rule.len());
        }
        most
    }

    pub fn refuse_propose(&self, change: Change) -> Option<Why> {
        let last = (self.last == u32::MAX).then_some(Why::NoSerial);
        self.refuse_change(change)
            .or(self.refuse_open())
            .or(self.refuse_full(change))
            .or(last)
    }

    pub fn refuse_revise(&self, numbers: Numbers, change: Change) -> Option<Why> {
        self.refuse_change(change)
            .or(self.refuse_full(change))
            .or(self.refuse_ticket(numbers))
    }

    // Why a table of so many rows, which is accepted, is not judged.
    pub fn refuse_adopt(&self, rows: usize, room: Room) -> Option<Why> {
        let full = (self.rules.len() >= MOST_RULES).then_some(Why::RulesFull);
        self.refuse_room(rows, room).or(self.refuse_open()).or(full)
    }

    pub fn refuse_admit(&self, numbers: Numbers, room: Room) -> Option<Why> {
        self.refuse_room(self.most_rows(), room)
            .or(self.refuse_ticket(numbers))
    }
}
