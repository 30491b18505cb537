// Drawn lists of calls, with what the second board says of each.
use crate::boards::rules::draw_rule;
use crate::boards::second::{Expected, Second};
use crate::boards::sets::{Build, settings};
use crate::generator::random::Random;
use board::call::Call;
use paper::change::Change;
use paper::numbers::Numbers;
use paper::own::OwnBinding;
use paper::room::Room;
use std::alloc::{AllocError, Global};
use tables::row::Row;

// Which calls a list is made of.
#[derive(Clone, Copy)]
pub enum Style {
    Usual,
    // Mostly to adopt, until no more rules can be.
    Adopting,
    // First to bind and to admit, until no more own bindings can stand.
    Filling,
}

// How many calls fill the own bindings.
const FILLING: usize = 256;

// What a call has to be answered, and the board that it leaves.
#[derive(Drop)]
pub struct Outcome<S> {
    pub expected: Expected<S>,
    pub own: Vec<OwnBinding>,
    pub open: usize,
}

#[derive(Drop)]
pub struct Plan<S> {
    // The calls, and for each the outcome.
    pub calls: Vec<Call>,
    pub outcomes: Vec<Outcome<S>>,
}

// A place below `end`; 0 where there is none.
fn draw_place(random: &mut Random, end: usize) -> u16 {
    u16::try_from(random.below(end)).unwrap_or(0)
}

// Few of the conditions; seldom one that is none.
fn draw_bits<S: Build>(random: &mut Random) -> u16 {
    let mask = u64::from(settings::<S>().saturating_sub(1));
    let few = random.word() & random.word() & random.word() & mask;
    let strange = if random.one_in(24) {
        1u64.wrapping_shl(S::conditions())
    } else {
        0
    };
    ((few | strange) & 0x7FFF) as u16
}

// Two ends of which one is mostly an own place; seldom one that is none.
fn draw_ends<S: Build>(random: &mut Random, second: &Second<S>) -> (u16, u16) {
    let places = second.marks.len();
    let other = draw_place(random, places);
    let own = draw_place(random, second.own_places);
    match random.below(16) {
        0 => (other, draw_place(random, places)),
        1 => (u16::try_from(places).unwrap_or(0), own),
        2..=8 => (own, other),
        _ => (other, own),
    }
}

fn draw_binding<S: Build>(random: &mut Random, second: &Second<S>) -> OwnBinding {
    let (from, to) = draw_ends(random, second);
    OwnBinding {
        from,
        to,
        on: draw_bits::<S>(random),
        off: draw_bits::<S>(random),
    }
}

// The number of an own binding, or seldom one behind them, as those of far bindings are.
fn draw_number<S: Build>(random: &mut Random, second: &Second<S>) -> usize {
    let count = second.own.len();
    if random.one_in(8) {
        count.saturating_add(random.below(2))
    } else {
        random.below(count)
    }
}

// A change; where no own binding stands mostly one that binds.
fn draw_change<S: Build>(random: &mut Random, second: &Second<S>) -> Change {
    let number = draw_number(random, second);
    let bare = second.own.is_empty() && !random.one_in(8);
    match random.below(10) {
        0 | 1 if !bare => Change::Unbind(number),
        2..=5 if !bare => {
            Change::Recondition(number, draw_bits::<S>(random), draw_bits::<S>(random))
        }
        _ => Change::Bind(draw_binding(random, second)),
    }
}

// The numbers of the last ticket.
fn last_numbers<S: Build>(second: &Second<S>) -> Numbers {
    Numbers {
        board: second.number,
        serial: second.last.max(1),
    }
}

// The numbers of the last ticket, of one before or behind it, or of one of another board.
fn draw_numbers<S: Build>(random: &mut Random, second: &Second<S>) -> Numbers {
    let Numbers { board, serial } = last_numbers(second);
    match random.below(8) {
        0 => Numbers {
            board: board.wrapping_add(1),
            serial,
        },
        1 if serial > 1 => Numbers {
            board,
            serial: serial.saturating_sub(1),
        },
        2 => Numbers {
            board,
            serial: serial.saturating_add(1),
        },
        _ => Numbers { board, serial },
    }
}

// Lists for tables of so many rows: just long enough, one of them too short, or longer.
fn draw_room<S: Build>(random: &mut Random, second: &Second<S>, rows: usize) -> Room {
    let Room { main, spare, steps } = second.need(rows);
    match random.below(16) {
        0 => Room {
            main: main.saturating_sub(1),
            spare,
            steps,
        },
        1 => Room {
            main,
            spare: spare.saturating_sub(1),
            steps,
        },
        2 => Room {
            main,
            spare,
            steps: steps.saturating_sub(1),
        },
        3..=8 => Room { main, spare, steps },
        9 => second.there,
        _ => Room {
            main: usize::MAX,
            spare: spare.saturating_add(3),
            steps: steps.saturating_add(5),
        },
    }
}

// A rule; one time in two the first of some that holds, if one does.
fn draw_table<S: Build>(random: &mut Random, second: &Second<S>) -> Result<Vec<Row>, AllocError> {
    let mut table = draw_rule(second.heap, random, S::conditions())?;
    let tries = if random.one_in(2) { 6 } else { 0 };
    for _ in 0..tries {
        if second.holds(&table)? {
            break;
        }
        table = draw_rule(second.heap, random, S::conditions())?;
    }
    Ok(table)
}

fn draw_adopt<S: Build>(random: &mut Random, second: &Second<S>) -> Result<Call, AllocError> {
    let table = draw_table(random, second)?;
    let room = draw_room(random, second, table.len());
    Ok(Call::Adopt(table, room))
}

fn draw_admit<S: Build>(random: &mut Random, second: &Second<S>, numbers: Numbers) -> Call {
    Call::Admit(numbers, draw_room(random, second, second.most_rows()))
}

// A call that decides the open proposal, or opens one.
fn draw_step<S: Build>(random: &mut Random, second: &Second<S>) -> Call {
    if second.pending.is_some() {
        draw_admit(random, second, last_numbers(second))
    } else {
        Call::Propose(draw_change(random, second))
    }
}

fn draw_usual<S: Build>(random: &mut Random, second: &Second<S>) -> Result<Call, AllocError> {
    let numbers = draw_numbers(random, second);
    let open = second.pending.is_some();
    Ok(match random.below(32) {
        0 => Call::AskOpen,
        1 => draw_admit(random, second, numbers),
        2 => Call::Withdraw(numbers),
        3 => Call::Revise(numbers, draw_change(random, second)),
        4 => draw_adopt(random, second)?,
        5 => Call::Propose(draw_change(random, second)),
        6..=9 if open => Call::Revise(last_numbers(second), draw_change(random, second)),
        10 if open => Call::Withdraw(last_numbers(second)),
        6..=13 if !open => draw_adopt(random, second)?,
        _ => draw_step(random, second),
    })
}

// A binding that can be proposed where there is an own place, or the right to let it stand.
fn draw_filling<S: Build>(random: &mut Random, second: &Second<S>) -> Call {
    if second.pending.is_some() {
        return Call::Admit(last_numbers(second), second.there);
    }
    Call::Propose(Change::Bind(OwnBinding {
        from: draw_place(random, second.own_places),
        to: draw_place(random, second.marks.len()),
        on: 0,
        off: 0,
    }))
}

impl Style {
    // How many calls a list has.
    fn count(self, random: &mut Random) -> usize {
        let more = random.below(25);
        match self {
            Style::Usual => more.saturating_add(32),
            Style::Adopting => more.saturating_add(24),
            Style::Filling => more.saturating_add(FILLING + 40),
        }
    }

    // Draws the call at a number.
    fn draw<S: Build>(
        self,
        random: &mut Random,
        second: &Second<S>,
        at: usize,
    ) -> Result<Call, AllocError> {
        match self {
            Style::Adopting if !random.one_in(4) => draw_adopt(random, second),
            Style::Filling if at < FILLING => Ok(draw_filling(random, second)),
            _ => draw_usual(random, second),
        }
    }
}

impl<S: Build> Plan<S> {
    fn new(heap: Global) -> Plan<S> {
        Plan {
            calls: Vec::new(heap),
            outcomes: Vec::new(heap),
        }
    }

    // Adds a call, and makes it on the second board.
    fn add(&mut self, second: &mut Second<S>, call: Call) -> Result<(), AllocError> {
        self.outcomes.push(Outcome {
            expected: second.call(&call)?,
            own: second.own.to_vec(second.heap)?,
            open: second.open_proposals(),
        })?;
        self.calls.push(call)?;
        Ok(())
    }
}

// Draws a list of calls, and makes each on the second board.
pub fn draw_plan<S: Build>(
    random: &mut Random,
    second: &mut Second<S>,
    style: Style,
) -> Result<Plan<S>, AllocError> {
    let mut plan = Plan::new(second.heap);
    for at in 0..style.count(random) {
        let call = style.draw(random, second, at)?;
        plan.add(second, call)?;
    }
    Ok(plan)
}
