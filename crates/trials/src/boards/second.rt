// A second board, plain lists alone: what each call is answered, and what it leaves. The explorer judges its rules.
use crate::boards::judged::{Judged, judge_all};
use crate::boards::lists::Lists;
use crate::boards::refused::Why;
use crate::boards::rules::read_table;
use crate::boards::sets::{Build, link};
use board::call::Call;
use paper::change::Change;
use paper::numbers::Numbers;
use paper::own::OwnBinding;
use paper::room::Room;
use routing::binding::Binding;
use std::alloc::{AllocError, Global};
use tables::row::{Operation, Row};

// A rule breaks in a network: one that was to be adopted, or an adopted one with a change.
#[derive(Drop)]
pub struct Fall<S> {
    pub change: Option<Change>,
    pub rule: usize,
    pub place: usize,
    pub setting: u32,
    pub table: Vec<Operation>,
    pub net: Lists<S>,
}

// What a call has to be answered.
#[derive(Drop)]
pub enum Expected<S> {
    Refused(Why),
    Adopted(usize),
    Proposed(Numbers),
    Revised(Numbers),
    Stood(usize),
    TurnedDown(Fall<S>),
    Withdrawn,
    Open(usize),
    // The second board's lists are no network, which never comes.
    Nothing,
}

#[derive(Drop)]
pub struct Second<S> {
    pub heap: Global,
    pub number: u32,
    // How many of the places are own ones.
    pub own_places: usize,
    // The marks of all places, the own ones first.
    pub marks: Vec<u32>,
    // The far bindings, with their ends among all places.
    pub far: Vec<Binding<S>>,
    pub own: Vec<OwnBinding>,
    pub rules: Vec<Vec<Operation>>,
    pub pending: Option<Change>,
    pub last: u32,
    // The lists that there are to be lent.
    pub there: Room,
}

// What a change makes of a list of own bindings.
fn changed(
    heap: Global,
    own: &[OwnBinding],
    change: Change,
) -> Result<Vec<OwnBinding>, AllocError> {
    let mut after = Vec::new(heap);
    for (number, binding) in own.iter().enumerate() {
        match change {
            Change::Unbind(i) if i == number => {}
            Change::Recondition(i, on, off) if i == number => {
                let OwnBinding { from, to, .. } = *binding;
                after.push(OwnBinding { from, to, on, off })?;
            }
            _ => after.push(*binding)?,
        }
    }
    if let Change::Bind(binding) = change {
        after.push(binding)?;
    }
    Ok(after)
}

// Far bindings behind so many own places.
fn moved<S: Build>(
    heap: Global,
    bindings: &[Binding<S>],
    own: usize,
) -> Result<Vec<Binding<S>>, AllocError> {
    let by = u16::try_from(own).unwrap_or(0);
    let mut moved = Vec::new(heap);
    for binding in bindings {
        moved.push(Binding {
            from: binding.from.saturating_add(by),
            to: binding.to.saturating_add(by),
            set: binding.set,
        })?;
    }
    Ok(moved)
}

impl<S: Build> Second<S> {
    // A board with own places with these marks, in front of a far network.
    pub fn open(
        heap: Global,
        number: u32,
        own: &[u32],
        far: &Lists<S>,
        there: Room,
    ) -> Result<Second<S>, AllocError> {
        let mut marks = own.to_vec(heap)?;
        marks.extend_from_slice(&far.marks)?;
        Ok(Second {
            heap,
            number,
            own_places: own.len(),
            marks,
            far: moved(heap, &far.bindings, own.len())?,
            own: Vec::new(heap),
            rules: Vec::new(heap),
            pending: None,
            last: 0,
            there,
        })
    }

    // The network with these own bindings.
    pub fn net(&self, own: &[OwnBinding]) -> Result<Lists<S>, AllocError> {
        let mut bindings = Vec::new(self.heap);
        for binding in own {
            bindings.push(link(binding))?;
        }
        bindings.extend_from_slice(&self.far)?;
        Ok(Lists {
            marks: self.marks.to_vec(self.heap)?,
            bindings,
        })
    }

    // So much of the lists as a call names.
    fn lent(&self, room: Room) -> Room {
        Room {
            main: room.main.min(self.there.main),
            spare: room.spare.min(self.there.spare),
            steps: room.steps.min(self.there.steps),
        }
    }

    // Whether rows are a table whose rule holds in the network that stands.
    pub fn holds(&self, rows: &[Row]) -> Result<bool, AllocError> {
        let Some(rule) = read_table(self.heap, rows, S::conditions())? else {
            return Ok(false);
        };
        let net = self.net(&self.own)?;
        let judged = judge_all(self.heap, &net, &[rule])?;
        Ok(matches!(judged, Judged::AllHold(_)))
    }

    fn adopt(&mut self, rows: &[Row], room: Room) -> Result<Expected<S>, AllocError> {
        let Some(rule) = read_table(self.heap, rows, S::conditions())? else {
            return Ok(Expected::Refused(Why::BadTable));
        };
        if let Some(why) = self.refuse_adopt(rows.len(), self.lent(room)) {
            return Ok(Expected::Refused(why));
        }
        let net = self.net(&self.own)?;
        let rules = [rule];
        let judged = judge_all(self.heap, &net, &rules)?;
        let [table] = rules;
        Ok(match judged {
            Judged::AllHold(rounds) => {
                self.rules.push(table)?;
                Expected::Adopted(rounds)
            }
            Judged::Breaks(_, place, setting) => Expected::TurnedDown(Fall {
                change: None,
                rule: self.rules.len(),
                place,
                setting,
                table,
                net,
            }),
            Judged::NoNetwork => Expected::Nothing,
        })
    }

    fn propose(&mut self, change: Change) -> Expected<S> {
        if let Some(why) = self.refuse_propose(change) {
            return Expected::Refused(why);
        }
        self.last = self.last.saturating_add(1);
        self.pending = Some(change);
        Expected::Proposed(Numbers {
            board: self.number,
            serial: self.last,
        })
    }

    fn revise(&mut self, numbers: Numbers, change: Change) -> Expected<S> {
        if let Some(why) = self.refuse_revise(numbers, change) {
            return Expected::Refused(why);
        }
        self.pending = Some(change);
        Expected::Revised(numbers)
    }

    fn admit(&mut self, numbers: Numbers, room: Room) -> Result<Expected<S>, AllocError> {
        if let Some(why) = self.refuse_admit(numbers, self.lent(room)) {
            return Ok(Expected::Refused(why));
        }
        let Some(change) = self.pending.take() else {
            return Ok(Expected::Nothing);
        };
        let own = changed(self.heap, &self.own, change)?;
        let net = self.net(&own)?;
        Ok(match judge_all(self.heap, &net, &self.rules)? {
            Judged::AllHold(rounds) => {
                self.own = own;
                Expected::Stood(rounds)
            }
            Judged::Breaks(rule, place, setting) => Expected::TurnedDown(Fall {
                change: Some(change),
                rule,
                place,
                setting,
                table: match self.rules.get(rule) {
                    Some(table) => table.to_vec(self.heap)?,
                    None => Vec::new(self.heap),
                },
                net,
            }),
            Judged::NoNetwork => Expected::Nothing,
        })
    }

    fn withdraw(&mut self, numbers: Numbers) -> Expected<S> {
        if let Some(why) = self.refuse_ticket(numbers) {
            return Expected::Refused(why);
        }
        self.pending = None;
        Expected::Withdrawn
    }

    // How many proposals are open.
    pub fn open_proposals(&self) -> usize {
        usize::from(self.pending.is_some())
    }

    // Makes a call, and says what it has to be answered.
    pub fn call(&mut self, call: &Call) -> Result<Expected<S>, AllocError> {
        match call {
            Call::Adopt(table, room) => self.adopt(table, *room),
            Call::Propose(change) => Ok(self.propose(*change)),
            Call::Revise(numbers, change) => Ok(self.revise(*numbers, *change)),
            Call::Admit(numbers, room) => self.admit(*numbers, *room),
            Call::Withdraw(numbers) => Ok(self.withdraw(*numbers)),
            Call::AskOpen => Ok(Expected::Open(self.open_proposals())),
        }
    }
}
