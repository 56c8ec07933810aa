// What READ CAPACITY(10) answers: how long a unit is.
// It is told of a Locked and of a recovering unit too.
ghost use Rattle.std.specs.Prelude.{◌≡◌};
ghost use Rattle.model.specs.Commands.{capacity_data};

use model::limits::BLOCK_BYTES;

pub const CAPACITY_LENGTH: usize = 8;

// The length of a block, in the 32 bits in which a transfer's bytes are counted.
pub const BLOCK_SIZE: u32 = BLOCK_BYTES as u32;

// The answer to READ CAPACITY of a unit of so many blocks: its last address, and the length of a block.
pub fn capacity_data(count: u32) -> [u8; CAPACITY_LENGTH]
    ensures { result ≡ capacity_data count }
{
    let [a0, a1, a2, a3] = count.saturating_sub(1).to_be_bytes();
    let [b0, b1, b2, b3] = BLOCK_SIZE.to_be_bytes();
    [a0, a1, a2, a3, b0, b1, b2, b3]
}
