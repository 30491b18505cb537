// The positions of a network with their steps.
//
// A position is a place with a setting. Positions are numbered: place × settings + setting.
ghost use Rattle.std.specs.Prelude.{◌≤◌};

use crate::explorer::positions::PositionSet;
use conditions::set::ConditionSet;
use routing::binding::Binding;
use routing::network::Network;
use std::alloc::{AllocError, Global};
use std::ops::Range;

#[derive(Drop)]
struct Place {
    marks: u32,
    // The positions from which a step leads to the place, whatever setting comes next.
    before: PositionSet,
}

#[derive(Drop)]
pub struct Graph {
    heap: Global,
    conditions: u32,
    places: Vec<Place>,
    everywhere: PositionSet,
    nowhere: PositionSet,
    ghost few: { conditions ≤ 16 },
}

impl Graph {
    // The graph of a network; the sets of its positions are made on the heap.
    pub fn of<N: Network>(heap: Global, net: &N) -> Result<Graph, AllocError> {
        let conditions = N::Set::conditions();
        let size = net.places() << conditions;
        let mut places = Vec::new(heap);
        for place in 0..net.places() {
            let marks = net.marks(place).unwrap_or(0);
            let before = PositionSet::filled(heap, size, false)?;
            places.push(Place { marks, before })?;
        }
        let mut graph = Graph {
            heap,
            conditions,
            places,
            everywhere: PositionSet::filled(heap, size, true)?,
            nowhere: PositionSet::filled(heap, size, false)?,
        };
        graph.add_steps(net);
        Ok(graph)
    }

    // Adds the steps of each binding.
    fn add_steps<N: Network>(&mut self, net: &N) {
        for number in 0..net.bindings() {
            if let Some(binding) = net.binding(number) {
                self.add_steps_of(&binding);
            }
        }
    }

    // Adds the steps of a binding.
    fn add_steps_of<S: ConditionSet>(&mut self, binding: &Binding<S>) {
        for setting in 0..self.settings() {
            if binding.set.contains(setting) {
                let from = self.number(usize::from(binding.from), setting);
                self.add_step(from, usize::from(binding.to));
            }
        }
    }

    // Adds the step from a position to a place.
    fn add_step(&mut self, from: usize, to: usize) {
        if let Some(place) = self.places.get_mut(to) {
            place.before.insert(from);
        }
    }

    pub fn heap(&self) -> Global {
        self.heap
    }

    pub fn places(&self) -> usize {
        self.places.len()
    }

    pub fn settings(&self) -> u32 {
        1 << self.conditions
    }

    // How many positions there are.
    pub fn size(&self) -> usize {
        self.places() << self.conditions
    }

    pub fn number(&self, place: usize, setting: u32) -> usize {
        (place << self.conditions) | setting as usize
    }

    // The place of the position with a number.
    pub fn place_of(&self, number: usize) -> usize {
        number >> self.conditions
    }

    // The setting of the position with a number.
    pub fn setting_of(&self, number: usize) -> u32 {
        (number % (1 << self.conditions)) as u32
    }

    // The positions of a place.
    pub fn positions_of(&self, place: usize) -> Range<usize> {
        self.number(place, 0)..self.number(place.saturating_add(1), 0)
    }

    // Whether the place of a position has mark k.
    pub fn has_mark(&self, position: usize, k: u8) -> bool {
        self.places
            .get(self.place_of(position))
            .is_some_and(|place| is_on(place.marks, k))
    }

    // Whether condition k is on at a position.
    pub fn has_condition(&self, position: usize, k: u8) -> bool {
        is_on(self.setting_of(position), k)
    }

    // Whether a step leads from a position to a place.
    pub fn leads(&self, from: usize, place: usize) -> bool {
        self.places
            .get(place)
            .is_some_and(|place| place.before.contains(from))
    }

    // Whether no step leads from a position.
    pub fn rests(&self, position: usize) -> bool {
        !self
            .places
            .iter()
            .any(|place| place.before.contains(position))
    }

    // The first position that a step leads to and that passes a test.
    pub fn successor_where<F: Fn(usize) -> bool>(&self, from: usize, test: F) -> Option<usize>
        requires { F.IsAlwaysCallable test }
    {
        for place in 0..self.places() {
            if self.leads(from, place) {
                for to in self.positions_of(place) {
                    if test(to) {
                        return Some(to);
                    }
                }
            }
        }
        None
    }

    // Whether some step leads from a position to one that passes a test.
    pub fn leads_to<F: Fn(usize) -> bool>(&self, from: usize, test: F) -> bool
        requires { F.IsAlwaysCallable test }
    {
        self.successor_where(from, test).is_some()
    }

    // Whether some step leads from a position into a set.
    pub fn leads_into(&self, from: usize, set: &PositionSet) -> bool {
        self.leads_to(from, |to| set.contains(to))
    }

    // The positions that pass a test.
    pub fn positions_where<F: Fn(usize) -> bool>(&self, test: F) -> Result<PositionSet, AllocError>
        requires { F.IsAlwaysCallable test }
    {
        PositionSet::of(self.heap, self.size(), test)
    }

    // The positions whose place has mark k.
    pub fn marked(&self, k: u8) -> Result<PositionSet, AllocError> {
        self.positions_where(|at| self.has_mark(at, k))
    }

    // The positions where condition k is on.
    pub fn while_on(&self, k: u8) -> Result<PositionSet, AllocError> {
        self.positions_where(|at| self.has_condition(at, k))
    }

    // The positions that both sets have.
    pub fn both(&self, p: &PositionSet, q: &PositionSet) -> Result<PositionSet, AllocError> {
        self.positions_where(|at| p.contains(at) && q.contains(at))
    }

    // The positions that one of the sets has.
    pub fn either(&self, p: &PositionSet, q: &PositionSet) -> Result<PositionSet, AllocError> {
        self.positions_where(|at| p.contains(at) || q.contains(at))
    }

    // The positions from which some step leads into a set.
    pub fn before(&self, set: &PositionSet) -> Result<PositionSet, AllocError> {
        self.positions_where(|at| self.leads_into(at, set))
    }

    // The positions that a set does not have.
    pub fn complement(&self, set: &PositionSet) -> Result<PositionSet, AllocError> {
        self.positions_where(|at| !set.contains(at))
    }

    // The set of all positions.
    pub fn everywhere(&self) -> &PositionSet {
        &self.everywhere
    }

    // The set of no positions.
    pub fn nowhere(&self) -> &PositionSet {
        &self.nowhere
    }
}

// Whether bit k is 1.
fn is_on(bits: u32, k: u8) -> bool {
    bits.checked_shr(u32::from(k)).unwrap_or(0) & 1 == 1
}
