// The unit that a command is for, and how a command ended.
// The types alone, so that definitions may name them.
use model::command::Status;
use model::layout::Place;
use model::sense::Sense;

// A unit's place, why it is closed if it is, and its sense.
#[derive(Clone, Copy)]
pub struct Target {
    pub place: Place,
    pub closed: Option<Sense>,
    pub sense: Sense,
}

// The status, how many bytes are answered at the buffer's front, how many moved in either direction, and the unit's sense afterwards.
#[derive(Clone, Copy)]
pub struct Ended {
    pub status: Status,
    pub answered: usize,
    pub moved: u32,
    pub sense: Sense,
}
