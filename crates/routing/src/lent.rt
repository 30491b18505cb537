// A network that is lent means what it means to its owner.
use crate::binding::Binding;
use crate::network::Network;

impl<N: Network> Network for &N {
    type Set = N::Set;

    ghost meaning = { λ n. N.Network.meaning n.now };

    ghost fits = { λ n. N.Network.fits n.now };

    ghost over = { λ n. N.Network.over n.now };

    fn places(&self) -> usize {
        (**self).places()
    }

    fn bindings(&self) -> usize {
        (**self).bindings()
    }

    fn marks(&self, place: usize) -> Option<u32> {
        (**self).marks(place)
    }

    fn binding(&self, number: usize) -> Option<Binding<N::Set>> {
        (**self).binding(number)
    }
}
