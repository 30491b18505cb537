// Openings at the limits of a board, and beyond them.
use crate::boards::tally::{BoardTally, Seen};
use board::board::Board;
use board::opening::{NotOpened, OpeningFault};
use board::play::play;
use conditions::plain::Plain;
use routing::binding::Binding;
use routing::network::Network;
use routing::refusal::Refusal;
use routing::site::SiteTable;
use std::alloc::{AllocError, Global};

const REFUSED: OpeningFault = OpeningFault::Refused(Refusal::OverLimit);

// So many own places in front of a far network with so many places and bindings, and whether a board opens.
struct Limit {
    own: usize,
    places: usize,
    bindings: usize,
    opens: bool,
}

static LIMITS: [Limit; 8] = [
    Limit {
        own: 64,
        places: 0,
        bindings: 0,
        opens: true,
    },
    Limit {
        own: 65,
        places: 0,
        bindings: 0,
        opens: false,
    },
    Limit {
        own: 64,
        places: 192,
        bindings: 9,
        opens: true,
    },
    Limit {
        own: 64,
        places: 193,
        bindings: 9,
        opens: false,
    },
    Limit {
        own: 0,
        places: 256,
        bindings: 9,
        opens: true,
    },
    Limit {
        own: 1,
        places: 256,
        bindings: 9,
        opens: false,
    },
    Limit {
        own: 1,
        places: 2,
        bindings: 3968,
        opens: true,
    },
    Limit {
        own: 1,
        places: 2,
        bindings: 3969,
        opens: false,
    },
];

// Whether a board opens, or its far network is handed back with the right refusal.
fn is_opened<F: Network<Set = Plain> + Drop>(
    heap: Global,
    own: &[u32],
    far: F,
    opens: bool,
) -> bool {
    let (places, bindings) = (far.places(), far.bindings());
    match Board::open(heap, 1, own, far) {
        Ok(board) => opens && board.bindings() == bindings,
        Err(NotOpened { fault, far }) => {
            !opens && fault == REFUSED && far.places() == places && far.bindings() == bindings
        }
    }
}

// Whether no calls are played, or refused rightly.
fn is_played<F: Network<Set = Plain> + Drop>(
    heap: Global,
    own: &[u32],
    far: F,
    opens: bool,
) -> bool {
    let mut main: [Plain; 0] = [];
    let mut spare: [Plain; 0] = [];
    match play(heap, 1, own, far, &[], &mut main, &mut spare, &mut []) {
        Ok(played) => opens && played.answers.is_empty(),
        Err(fault) => !opens && fault == REFUSED,
    }
}

fn try_limit(heap: Global, limit: &Limit, tally: &mut BoardTally) -> Result<(), AllocError> {
    let own = vec![in heap; 1; limit.own]?;
    let marks = vec![in heap; 0; limit.places]?;
    let binding = Binding {
        from: 0,
        to: 1,
        set: Plain(true),
    };
    let bindings = vec![in heap; binding; limit.bindings]?;
    let Ok(site) = SiteTable::open(&marks, &bindings) else {
        tally.add(Seen::Faults);
        return Ok(());
    };
    let right = is_opened(heap, &own, site, limit.opens)
        && is_played(heap, &own, &site, limit.opens);
    tally.add(if limit.opens {
        Seen::Opened
    } else {
        Seen::NotOpened
    });
    tally.add_if(Seen::WrongOpenings, !right);
    Ok(())
}

// Tries all openings.
pub fn try_limits(heap: Global, tally: &mut BoardTally) -> Result<(), AllocError> {
    for limit in &LIMITS {
        try_limit(heap, limit, tally)?;
    }
    Ok(())
}
