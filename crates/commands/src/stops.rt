// Where a transfer of blocks stopped: how many had moved, and the medium's fault at the next.
// In a file of its own, so that definitions may name it.
use model::refusal::Fault;

#[derive(Clone, Copy)]
pub struct Stopped {
    pub moved: u16,
    pub fault: Fault,
}
