// READ(10) and WRITE(10) on a unit, once they passed their checks.
// A medium's fault, whichever it is, becomes the sense of its direction, with the address in the unit.
ghost use Rattle.std.specs.Prelude.{◌≡◌, ◌+◌, ◌*◌, ◌≤◌, length, if◌then◌else◌, is_ok, MatchResult};
ghost use Rattle.model.specs.Commands.{good_run, bytes_from, read_blocks, write_blocks};
ghost use Rattle.model.specs.declared.command.Status.TheVariants.{Passed, Failed};
ghost use Rattle.model.specs.declared.sense.Sense.TheVariants as sense;
ghost use Rattle.commands.specs.Endings.{ending_of, front};
ghost use Rattle.commands.specs.Transfers.{HasRoom, moved_of};

use crate::blocks::{read_blocks, write_blocks};
use crate::ended::Ended;
use crate::endings::without_data;
use crate::span::Span;
use crate::stops::Stopped;
use medium::Medium;
use model::command::Status;
use model::sense::Sense;
use scsi::capacity::BLOCK_SIZE;

// How a transfer ended: whole, or stopped at an address of the unit, which its sense tells. Nothing is answered.
fn finish<F: FnOnce(u32) -> Sense>(span: Span, transfer: Result<(), Stopped>, sense_at: F) -> Ended
    requires callable { F.IsAlwaysCallable sense_at }
    requires within { moved_of span.count transfer ≤ span.count }
    ensures status { result.status ≡ (if is_ok transfer then Passed else Failed) }
    ensures answered { result.answered ≡ 0 }
    ensures moved { result.moved ≡ 512 * moved_of span.count transfer }
    ensures sense { MatchResult transfer (λ _. result.sense ≡ sense.None) (λ s. F.post sense_at (span.address + s.moved) result.sense) }
{
    let (status, blocks, sense) = match transfer {
        Ok(()) => (Status::Passed, span.count, Sense::None),
        Err(stopped) => {
            let address = span.address + u32::from(stopped.moved);
            (Status::Failed, stopped.moved, sense_at(address))
        }
    };
    Ended {
        moved: BLOCK_SIZE * u32::from(blocks),
        ..without_data(status, sense)
    }
}

// The blocks that moved are answered.
pub(crate) fn read<M: Medium>(medium: &M, span: Span, buffer: &mut [u8]) -> Ended
    requires { HasRoom span buffer.old }
    ensures ending { ending_of result buffer.new (M.meaning medium.now) ≡ read_blocks span.address span.count (span.start + span.address) (good_run span.count (span.start + span.address) (M.meaning medium.now)) (M.meaning medium.now) }
    ensures bound { result.answered ≤ length buffer.new }
    ensures buffer { buffer.new ≡ front (bytes_from (good_run span.count (span.start + span.address) (M.meaning medium.now)) (span.start + span.address) (M.meaning medium.now)) buffer.old }
{
    let transfer = read_blocks(medium, span, buffer);
    let ended = finish(span, transfer, |address| Sense::ReadFault { address });
    Ended {
        answered: ended.moved as usize,
        ..ended
    }
}

// Nothing is answered. A function apart from `read`, as `write_block` is from `read_block`.
pub(crate) fn write<M: Medium>(medium: &mut M, span: Span, buffer: &[u8]) -> Ended
    requires { HasRoom span buffer.now }
    ensures bound { result.answered ≡ 0 }
    ensures ending { ending_of result buffer.now (M.meaning medium.new) ≡ write_blocks span.address span.count (span.start + span.address) (good_run span.count (span.start + span.address) (M.meaning medium.old)) buffer.now (M.meaning medium.old) }
{
    let transfer = write_blocks(medium, span, buffer);
    finish(span, transfer, |address| Sense::WriteFault { address })
}
