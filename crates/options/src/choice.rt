// What the options choose, before and after the bench's own stick fills the gaps.
// In a file of its own, so that definitions may name it.
use model::layout::BadRun;
use model::refusal::Refusal;

// The makes of medium.
// A make is a type where a medium is fitted, so each such use matches once: no closure is generic over a type, and `fit` answers Self.
#[derive(Clone, Copy, PartialEq, Eq, Debug)]
pub enum Make {
    Straight,
    Turning,
}

// The options by their names.
#[derive(Clone, Copy, PartialEq, Eq, Debug)]
pub enum Name {
    Layout,
    Medium,
    Blocks,
    Bad,
}

// The options that were given so far; none to begin with.
#[derive(Default, Drop)]
pub struct Chosen {
    pub(crate) layout: Option<Vec<u8>>,
    pub(crate) make: Option<Make>,
    pub(crate) blocks: Option<u32>,
    pub(crate) runs: Option<Vec<BadRun>>,
}

// Why there is no stick to power up.
#[derive(Clone, Copy, PartialEq, Eq, Debug)]
pub enum FitError {
    // inspection turns it down
    Refused(Refusal),
    // there is no memory for its medium
    OutOfMemory,
}

// The stick that is to be fitted: its layout bytes, and the make, the number of blocks and the bad runs of its medium.
#[derive(Drop)]
pub struct Fit {
    pub layout: Vec<u8>,
    pub make: Make,
    pub blocks: u32,
    pub runs: Vec<BadRun>,
}
