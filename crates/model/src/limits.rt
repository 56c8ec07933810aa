// The limits and other numbers that more than one crate speaks of.
// What one crate alone speaks of stands there.

// The interfaces of a stick, and the units of all of them.
pub const MOST_INTERFACES: usize = 4;

pub const MOST_UNITS: usize = 16;

// The most bytes of a passphrase and of a hint.
pub const PHRASE_BYTES: usize = 50;

pub const HINT_BYTES: usize = 100;

// The bytes of a block.
pub const BLOCK_BYTES: usize = 512;

// The blocks that a work step of a recovery clears.
pub const STEP_BLOCKS: u32 = 16;

// The descriptor type of the locking protocol: the second byte of Lock Data, of access data and of every part.
pub const LOCKABLE: u8 = 0x25;

// The interface protocol of Bulk-Only Transport, which both identities have.
pub const BULK_ONLY: u8 = 0x50;
