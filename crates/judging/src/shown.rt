// What is shown: positions hop by hop, and how the route ends.
#[derive(Clone, Copy, Debug, PartialEq, Eq)]
pub struct RouteStep {
    pub place: usize,
    pub setting: u32,
}

#[derive(Clone, Copy, Debug, PartialEq, Eq)]
pub enum Ending {
    // The last position is the one that was looked for.
    Reaches,
    // No step leads from the last position.
    Rests,
    // The last position steps to the one at this number of the list, from 0.
    Returns(usize),
}

// How many positions are shown, and the ending.
#[derive(Clone, Copy, Debug, PartialEq, Eq)]
pub struct Shown {
    pub count: usize,
    pub ending: Ending,
}
