// Why the last command for a unit failed, as REQUEST SENSE tells it.
// Key, code and qualifier of each stand in the definition `sense_values`, and the crate `scsi` tells them.
#[derive(Clone, Copy)]
pub enum Sense {
    // no `Option` around the others: a host is told this one as them, 00h, 00h and 00h
    None,
    // a recovering unit is not ready
    Recovering,
    // a Locked unit is protected
    Locked,
    OutOfRange,
    UnlistedCommand,
    InvalidField,
    // a bad block, with its address in the unit
    ReadFault { address: u32 },
    WriteFault { address: u32 },
}
