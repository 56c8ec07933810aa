// Runs of blocks on the medium.
// Each of these and a Put's part is a type of its own, so that none is taken for another; what they share is the trait `Extent`.

// The blocks of one unit: the first, and how many.
#[derive(Clone, Copy, Default)]
pub struct Place {
    pub start: u32,
    pub count: u32,
}

// Blocks that are bad: the first, and how many.
#[derive(Clone, Copy)]
pub struct BadRun {
    pub start: u32,
    pub count: u32,
}
