// What a bulk command answers: the CSW, and how many bytes at the buffer's front.
// In a file of its own, so that definitions may name it.
use scsi::status::CSW_LENGTH;

#[derive(Clone, Copy)]
pub struct Completion {
    pub csw: [u8; CSW_LENGTH],
    pub answered: usize,
}
