// A board is a network: the standing one. So is a board with a change.
ghost use Rattle.board.specs.Boards.{board_net, view_net};
ghost use Rattle.board.specs.Fitting.{board_fits, view_fits};

use crate::board::Board;
use crate::proposed::Proposed;
use routing::binding::Binding;
use routing::network::Network;

impl<F: Network> Network for Board<F> {
    type Set = F::Set;

    ghost meaning = { λ b. board_net b };

    ghost fits = { λ b. board_fits F.Network.fits b };

    ghost over = { λ b. F.Network.over b.front.far };

    fn places(&self) -> usize {
        self.front.count
    }

    fn bindings(&self) -> usize {
        self.own.len() + self.front.far.bindings()
    }

    fn marks(&self, place: usize) -> Option<u32> {
        self.front.marks(place)
    }

    fn binding(&self, number: usize) -> Option<Binding<F::Set>> {
        match self.own.get(number) {
            Some(entry) => Some(entry.binding()),
            None => self.front.far_binding(number - self.own.len()),
        }
    }
}

impl<F: Network> Network for Proposed<'_, F> {
    type Set = F::Set;

    ghost meaning = { λ p. view_net p };

    ghost fits = { λ p. view_fits F.Network.fits p };

    ghost over = { λ p. F.Network.over p.board.now.front.far };

    fn places(&self) -> usize {
        self.board.front.count
    }

    fn bindings(&self) -> usize {
        self.len() + self.board.front.far.bindings()
    }

    fn marks(&self, place: usize) -> Option<u32> {
        self.board.front.marks(place)
    }

    fn binding(&self, number: usize) -> Option<Binding<F::Set>> {
        let len = self.len();
        // Most bindings are far ones, so that their number is looked at before the change is.
        if number >= len {
            return self.board.front.far_binding(number - len);
        }
        match self.entry(number) {
            Some(entry) => Some(entry.binding()),
            None => unreachable!(),
        }
    }
}
