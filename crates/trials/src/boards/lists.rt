// A network as two lists, and comparing a network with lists.
use crate::boards::second::Second;
use crate::boards::sets::{Build, link, same_binding};
use crate::generator::random::Random;
use paper::own::OwnBinding;
use routing::binding::Binding;
use routing::network::Network;
use std::alloc::{AllocError, Global};

// The marks of the places, and the bindings.
#[derive(Drop)]
pub struct Lists<S> {
    pub marks: Vec<u32>,
    pub bindings: Vec<Binding<S>>,
}

// Marks for so many places, each an entry two times in three.
pub fn draw_marks(
    heap: Global,
    random: &mut Random,
    places: usize,
) -> Result<Vec<u32>, AllocError> {
    let mut marks = Vec::new(heap);
    for _ in 0..places {
        let drawn = random.word() & random.word() & 0xFFFF_FFFE;
        let entry = !random.one_in(3);
        marks.push(drawn as u32 | u32::from(entry))?;
    }
    Ok(marks)
}

// A network of up to `most` places, with up to two bindings for each.
pub fn draw_lists<S: Build>(
    heap: Global,
    random: &mut Random,
    most: usize,
) -> Result<Lists<S>, AllocError> {
    let places = random.below(most.saturating_add(1));
    let marks = draw_marks(heap, random, places)?;
    let mut bindings = Vec::new(heap);
    for _ in 0..random.below(places.saturating_mul(2).saturating_add(1)) {
        let from = u16::try_from(random.below(places)).unwrap_or(0);
        let to = u16::try_from(random.below(places)).unwrap_or(0);
        let set = S::draw(random);
        bindings.push(Binding { from, to, set })?;
    }
    Ok(Lists { marks, bindings })
}

// Whether a network has these marks, and none behind them.
fn has_marks<N: Network>(net: &N, marks: &[u32]) -> bool {
    let mut same = net.places() == marks.len() && net.marks(marks.len()).is_none();
    for (place, bits) in marks.iter().enumerate() {
        same &= net.marks(place) == Some(*bits);
    }
    same
}

// Whether a network has a binding at a number.
fn has_binding<S: Build, N: Network>(net: &N, number: usize, binding: &Binding<S>) -> bool {
    match net.binding(number) {
        Some(got) => same_binding(&got, binding),
        None => false,
    }
}

// Whether a network has these own bindings first.
fn has_own<S: Build, N: Network>(net: &N, own: &[OwnBinding]) -> bool {
    let mut same = true;
    for (number, binding) in own.iter().enumerate() {
        same &= has_binding(net, number, &link::<S>(binding));
    }
    same
}

// Whether a network has these far bindings behind so many own ones, and none behind them.
fn has_far<S: Build, N: Network>(net: &N, own: usize, far: &[Binding<S>]) -> bool {
    let count = own.saturating_add(far.len());
    let mut same = net.bindings() == count && net.binding(count).is_none();
    for (number, binding) in far.iter().enumerate() {
        same &= has_binding(net, own.saturating_add(number), binding);
    }
    same
}

// Whether a network is that of the second board with these own bindings.
pub fn is_network<S: Build, N: Network>(net: &N, second: &Second<S>, own: &[OwnBinding]) -> bool {
    has_marks(net, &second.marks)
        && has_own::<S, N>(net, own)
        && has_far(net, own.len(), &second.far)
}
