// The blocks that a work step of a recovery zeroes, through any medium's write.
// A bad block is passed over; it counts among the blocks of its step.
#![tactic(auto)]

ghost use Rattle.std.specs.Prelude.{◌≡◌, ◌+◌, ◌-◌, ◌*◌, ◌^◌, ◌<◌, min, replicate};
ghost use Rattle.model.specs.Blocks.{written};
ghost use Rattle.model.specs.Recovery.{zeroed};

use medium::Medium;
use model::layout::Place;
use model::limits::{BLOCK_BYTES, STEP_BLOCKS};

const ZEROS: [u8; BLOCK_BYTES] = [0; BLOCK_BYTES];

// A block past the medium's end is passed over as a bad one is.
fn zero_block<M: Medium>(medium: &mut M, start: u32, offset: u32)
    ensures { M.meaning medium.new ≡ written (M.meaning medium.old) (start + offset) (replicate 512 0) }
{
    if let Some(block) = start.checked_add(offset) {
        let _ = medium.write(block, &ZEROS);
    }
}

fn zero_blocks<M: Medium>(medium: &mut M, start: u32, first: u32, count: u32)
    requires { first + count < 2 ^ 32 }
    ensures { M.meaning medium.new ≡ zeroed (start + first) count (M.meaning medium.old) }
{
    for offset in first..first + count {
        zero_block(medium, start, offset);
    }
}

// The next blocks of a unit with this place after so many work steps: 16, or as many as are left.
pub fn zero_step<M: Medium>(medium: &mut M, place: Place, steps_done: u32)
    ensures { M.meaning medium.new ≡ zeroed (place.start + 16 * steps_done) (min 16 (place.count - 16 * steps_done)) (M.meaning medium.old) }
{
    if let Some(first) = STEP_BLOCKS.checked_mul(steps_done) {
        let left = place.count.saturating_sub(first);
        zero_blocks(medium, place.start, first, left.min(STEP_BLOCKS));
    }
}
