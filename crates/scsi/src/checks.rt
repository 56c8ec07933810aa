// What stands before a command's data: why it fails, how many bytes it means to move, and whether the host means the same.
// The first check that fails decides.
ghost use Rattle.std.specs.Prelude.{◌≡◌};
ghost use Rattle.model.specs.Commands.{needs_open, out_of_range, wrong as wrong_with, failure as failure_of, meant as meant_by, goes as goes_by, mismatched};

use crate::capacity::{BLOCK_SIZE, CAPACITY_LENGTH};
use crate::inquiry::INQUIRY_LENGTH;
use crate::sense::SENSE_LENGTH;
use model::command::{Cbw, Command, Direction};
use model::sense::Sense;

// Whether a command is for an open unit only. The others serve a Locked and a recovering unit too.
fn needs_open(command: Command) -> bool
    ensures { result ≡ needs_open command }
{
    match command {
        Command::TestUnitReady | Command::Read { .. } | Command::Write { .. } => true,
        Command::RequestSense { .. }
        | Command::Inquiry { .. }
        | Command::ReadCapacity
        | Command::Rejected { .. } => false,
    }
}

// The host may say any address, so that the sum can pass 32 bits. A count of 0 at the unit's very end is in range.
fn out_of_range(blocks: u32, address: u32, count: u16) -> Option<Sense>
    ensures { result ≡ out_of_range blocks address count }
{
    let end = u64::from(address) + u64::from(count);
    (end > u64::from(blocks)).then_some(Sense::OutOfRange)
}

// What is wrong with a command on any unit of so many blocks.
fn wrong(blocks: u32, command: Command) -> Option<Sense>
    ensures { result ≡ wrong_with blocks command }
{
    match command {
        Command::TestUnitReady
        | Command::RequestSense { .. }
        | Command::Inquiry { .. }
        | Command::ReadCapacity => None,
        Command::Read { address, count } | Command::Write { address, count } => out_of_range(
            blocks, address, count,
        ),
        Command::Rejected { sense } => Some(sense),
    }
}

// Why a command fails before any data, on a unit of so many blocks that is open, or closed for a reason.
pub fn failure(blocks: u32, closed: Option<Sense>, command: Command) -> Option<Sense>
    ensures { result ≡ failure_of blocks closed command }
{
    closed
        .filter(|_| needs_open(command))
        .or_else(|| wrong(blocks, command))
}

// How many bytes a command means to move: an allocation length cuts its answer.
fn meant(command: Command) -> u32
    ensures { result ≡ meant_by command }
{
    match command {
        Command::TestUnitReady | Command::Rejected { .. } => 0,
        Command::RequestSense { allocation } => u32::from(allocation).min(SENSE_LENGTH as u32),
        Command::Inquiry { allocation } => u32::from(allocation).min(INQUIRY_LENGTH as u32),
        Command::ReadCapacity => CAPACITY_LENGTH as u32,
        Command::Read { count, .. } | Command::Write { count, .. } => BLOCK_SIZE * u32::from(count),
    }
}

// Which way a command's data go.
fn goes(command: Command) -> Direction
    ensures { result ≡ goes_by command }
{
    match command {
        Command::Write { .. } => Direction::Out,
        _ => Direction::In,
    }
}

// Whether a command means some bytes, but the host says the other direction or fewer bytes.
pub fn is_mismatched(cbw: Cbw) -> bool
    ensures { result ≡ mismatched cbw.total cbw.direction cbw.command }
{
    let bytes = meant(cbw.command);
    bytes > 0 && (cbw.direction != goes(cbw.command) || cbw.total < bytes)
}
