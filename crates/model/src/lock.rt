// How a unit stands.
// A recovering unit is Locked; its work steps are counted as they are done.
#[derive(Clone, Copy)]
pub enum LockState {
    Impersonal,
    Locked,
    Unlocked,
    Recovering { steps_done: u32 },
}
