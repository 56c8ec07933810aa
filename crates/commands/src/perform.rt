// A command on its unit: weighed in order, then its data.
// The buffer is weighed first of all, so that its refusal says nothing of the command or of the unit.
ghost use Rattle.std.specs.Prelude.{◌≡◌, ◌≤◌, length, IfOk, None};
ghost use Rattle.model.specs.Commands.{failure as failure_of, meant as meant_by, moving};
ghost use Rattle.commands.specs.Endings.{carried_of, carried_out, ending_of, front};

use crate::disk;
use crate::ended::{Ended, Target};
use crate::endings::{fail, tell, without_data};
use crate::span::Span;
use medium::Medium;
use model::command::{Cbw, Command, Status};
use model::refusal::Refusal;
use scsi::capacity::{CAPACITY_LENGTH, capacity_data};
use scsi::checks::{failure, is_mismatched};
use scsi::inquiry::inquiry_data;
use scsi::sense::sense_data;

// The data of a command that passed its checks.
fn move_data<M: Medium>(
    medium: &mut M,
    target: Target,
    command: Command,
    buffer: &mut [u8],
) -> Ended
    requires { (failure_of target.place.count target.closed command ≡ None) × (meant_by command ≤ length buffer.old) }
    ensures ending { ending_of result buffer.new (M.meaning medium.new) ≡ moving target.place target.sense command buffer.old (M.meaning medium.old) }
    ensures bound { result.answered ≤ length buffer.new }
    ensures buffer { buffer.new ≡ front (moving target.place target.sense command buffer.old (M.meaning medium.old)).answer buffer.old }
{
    let start = target.place.start;
    match command {
        Command::TestUnitReady => tell(&[], 0, buffer),
        Command::RequestSense { allocation } => tell(
            &sense_data(target.sense),
            u16::from(allocation),
            buffer,
        ),
        Command::Inquiry { allocation } => tell(&inquiry_data(), allocation, buffer),
        Command::ReadCapacity => tell(
            &capacity_data(target.place.count),
            CAPACITY_LENGTH as u16,
            buffer,
        ),
        Command::Read { address, count } => disk::read(
            medium,
            Span {
                start,
                address,
                count,
            },
            buffer,
        ),
        Command::Write { address, count } => disk::write(
            medium,
            Span {
                start,
                address,
                count,
            },
            buffer,
        ),
        Command::Rejected { sense } => fail(sense),
    }
}

// A command on the unit: how it ended, or a refusal of a buffer that is shorter than the transfer length.
pub fn perform<M: Medium>(
    medium: &mut M,
    target: Target,
    cbw: Cbw,
    buffer: &mut [u8],
) -> Result<Ended, Refusal>
    ensures bound { IfOk result (λ e. e.answered ≤ length buffer.new) }
    ensures carried { carried_of result buffer.new (M.meaning medium.new) ≡ carried_out target cbw buffer.old (M.meaning medium.old) }
{
    if buffer.len() < cbw.total as usize {
        return Err(Refusal::ShortBuffer);
    }
    if let Some(sense) = failure(target.place.count, target.closed, cbw.command) {
        return Ok(fail(sense));
    }
    if is_mismatched(cbw) {
        return Ok(without_data(Status::PhaseError, target.sense));
    }
    Ok(move_data(medium, target, cbw.command, buffer))
}
