// Drawn networks.
use crate::generator::random::Random;
use crate::generator::sets::Draw;
use routing::binding::Binding;
use std::alloc::{AllocError, Global};

const MOST_PLACES: usize = 10;

const FEW_BINDINGS: usize = 12;

const MOST_BINDINGS: usize = 30;

// The marks of the places, and the bindings.
#[derive(Drop)]
pub struct Drawn<S> {
    pub marks: Vec<u32>,
    pub bindings: Vec<Binding<S>>,
}

// Which bindings a network gets.
#[derive(Clone, Copy)]
enum Shape {
    // Between any places.
    Scattered,
    // From each place to the next, and then some that do not go on, so that routes are long.
    Chain,
}

// Marks for up to ten places. Each place has mark 0, which entries have, one time in three, but in some networks
// never; and of the others a quarter or an eighth.
fn draw_marks(heap: Global, random: &mut Random) -> Result<Vec<u32>, AllocError> {
    let mut marks = Vec::new(heap);
    let entries = !random.one_in(8);
    let fewer = random.one_in(2);
    let places = random.below(MOST_PLACES + 1);
    for _ in 0..places {
        let quarter = random.word() & random.word();
        let drawn = if fewer {
            quarter & random.word()
        } else {
            quarter
        };
        let entry = entries && random.one_in(3);
        marks.push((drawn & 0xFFFF_FFFE) as u32 | u32::from(entry))?;
    }
    Ok(marks)
}

fn draw_place(random: &mut Random, places: usize) -> u16 {
    u16::try_from(random.below(places)).unwrap_or(0)
}

// The ends of the binding at a number.
fn draw_ends(random: &mut Random, places: usize, shape: Shape, number: u16) -> (u16, u16) {
    let from = draw_place(random, places);
    match shape {
        Shape::Scattered => (from, draw_place(random, places)),
        Shape::Chain => {
            let next = number.saturating_add(1);
            if usize::from(next) < places {
                (number, next)
            } else {
                (from, draw_place(random, usize::from(from) + 1))
            }
        }
    }
}

// How many bindings a network with places gets.
fn draw_count(random: &mut Random, places: usize, shape: Shape) -> usize {
    match shape {
        Shape::Scattered => {
            let end = if random.one_in(2) {
                FEW_BINDINGS
            } else {
                MOST_BINDINGS
            };
            random.below(end + 1)
        }
        Shape::Chain => places.saturating_sub(1).saturating_add(random.below(6)),
    }
}

// Up to thirty bindings; none where there is no place.
fn draw_bindings<S: Draw>(
    heap: Global,
    random: &mut Random,
    places: usize,
) -> Result<Vec<Binding<S>>, AllocError> {
    let mut bindings = Vec::new(heap);
    let shape = if random.one_in(2) {
        Shape::Chain
    } else {
        Shape::Scattered
    };
    let count = if places == 0 {
        0
    } else {
        draw_count(random, places, shape)
    };
    for number in 0..u16::try_from(count).unwrap_or(0) {
        let (from, to) = draw_ends(random, places, shape, number);
        let set = S::draw(random);
        bindings.push(Binding { from, to, set })?;
    }
    Ok(bindings)
}

pub fn draw_network<S: Draw>(heap: Global, random: &mut Random) -> Result<Drawn<S>, AllocError> {
    let marks = draw_marks(heap, random)?;
    let bindings = draw_bindings(heap, random, marks.len())?;
    Ok(Drawn { marks, bindings })
}
