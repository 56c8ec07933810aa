// The parts of a Put's data.
// No run of blocks, though it too has a start and a length: what they share is the trait `Extent`.

// One part: its first byte in the data, and how many bytes it has.
#[derive(Clone, Copy)]
pub struct Part {
    pub start: u32,
    pub length: u32,
}
