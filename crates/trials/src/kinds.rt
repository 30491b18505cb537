// Which kinds of network a network is of.
use crate::explorer::graph::Graph;
use crate::tally::{Seen, Tally};
use conditions::set::ConditionSet;
use routing::binding::Binding;
use routing::network::Network;

// Whether some binding before a binding joins the same places.
fn has_parallel<N: Network>(net: &N, number: usize, b: &Binding<N::Set>) -> bool {
    for number in 0..number {
        if let Some(before) = net.binding(number) {
            if before.from == b.from && before.to == b.to {
                return true;
            }
        }
    }
    false
}

// Counts a network with self-loops, with empty sets, with parallel bindings.
fn count_bindings<N: Network>(net: &N, tally: &mut Tally) {
    let mut looped = false;
    let mut empty = false;
    let mut parallel = false;
    for number in 0..net.bindings() {
        if let Some(b) = net.binding(number) {
            let is_empty = b.set.pick().is_none();
            looped |= b.from == b.to && !is_empty;
            empty |= is_empty;
            parallel |= has_parallel(net, number, &b);
        }
    }
    tally.add_if(Seen::SelfLoops, looped);
    tally.add_if(Seen::EmptySets, empty);
    tally.add_if(Seen::ParallelBindings, parallel);
}

// Under how many settings no step leads from a place.
fn resting_settings(graph: &Graph, place: usize) -> usize {
    graph
        .positions_of(place)
        .filter(|at| graph.rests(*at))
        .count()
}

// Counts a network without places, without entries, with places that rest always or under some settings only.
fn count_places(graph: &Graph, tally: &mut Tally) {
    let settings = graph.settings() as usize;
    let none = graph.places() == 0;
    let mut entry = false;
    let mut rests = false;
    let mut sometimes = false;
    for place in 0..graph.places() {
        let resting = resting_settings(graph, place);
        entry |= graph.has_mark(graph.number(place, 0), 0);
        rests |= resting == settings;
        sometimes |= resting > 0 && resting < settings;
    }
    tally.add_if(Seen::NoPlaces, none);
    tally.add_if(Seen::NoEntries, !none && !entry);
    tally.add_if(Seen::RestingPlaces, rests);
    tally.add_if(Seen::SometimesResting, sometimes);
}

// Counts the kinds that a network is of.
pub fn count_kinds<N: Network>(net: &N, graph: &Graph, tally: &mut Tally) {
    count_places(graph, tally);
    count_bindings(net, tally);
}
