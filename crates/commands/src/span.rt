// The blocks of one transfer: where their unit starts on the medium, the first address in the unit, and how many.
// Addresses stay in 32 bits, as the command's checks have seen to.
ghost use Rattle.std.specs.Prelude.{◌≡◌, ◌+◌, ◌^◌, ◌<◌, ◌≤◌, Err, IfOk, OnErr};
ghost use Rattle.model.specs.declared.refusal.Fault.TheVariants.{Outside};

use model::refusal::Fault;

#[derive(Clone, Copy)]
pub struct Span {
    pub start: u32,
    pub address: u32,
    pub count: u16,
    ghost fits: { address + count < 2 ^ 32 },
}

impl Span {
    // The block of the medium so many blocks on, which may lie past what any medium has.
    pub(crate) fn block(self, moved: u16) -> Result<u32, Fault>
        requires { moved < self.count }
        ensures block { IfOk result (λ b. b ≡ self.start + self.address + moved) }
        ensures past { OnErr result ((result ≡ Err Outside) × (2 ^ 32 ≤ self.start + self.address + moved)) }
    {
        let address = self.address + u32::from(moved);
        self.start.checked_add(address).ok_or(Fault::Outside)
    }
}
