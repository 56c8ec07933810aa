// What a command block wrapper (CBW) brings, and how its command ends.
// Of a command only its kind and its numbers are kept; the bytes that it ignores are gone.
ghost use Rattle.std.specs.Prelude.{◌≡◌, ok_or};
ghost use Rattle.model.specs.Wrappers.{direction_told, status_number};
ghost use Rattle.model.specs.declared.refusal.Refusal.TheVariants.{BadWrapper};

use crate::refusal::Refusal;
use crate::sense::Sense;

// Which way the host says that the data go: out to the stick, or in to the host.
#[derive(Clone, Copy, PartialEq, Eq, Debug)]
pub enum Direction {
    Out,
    In,
}

// The direction that bmCBWFlags tell.
impl TryFrom<u8> for Direction {
    type Error = Refusal;

    ghost try_from_gives = { λ n r. r ≡ ok_or (direction_told n) BadWrapper };

    fn try_from(flags: u8) -> Result<Direction, Refusal> {
        match flags {
            0x00 => Ok(Direction::Out),
            0x80 => Ok(Direction::In),
            _ => Err(Refusal::BadWrapper),
        }
    }
}

// What the command asks of its unit.
#[derive(Clone, Copy)]
pub enum Command {
    TestUnitReady,
    RequestSense { allocation: u8 },
    Inquiry { allocation: u16 },
    ReadCapacity,
    // READ(10) and WRITE(10), with an address in the unit and a number of blocks
    Read { address: u32, count: u16 },
    Write { address: u32, count: u16 },
    // an unlisted command, or one with an option that is not served. No error: as the others it has a unit, and ends there with a CSW and
    // this sense, whatever state the unit is in
    Rejected { sense: Sense },
}

// A CBW that is in order: total is the transfer length that the host says.
#[derive(Clone, Copy)]
pub struct Cbw {
    pub tag: u32,
    pub total: u32,
    pub direction: Direction,
    pub unit: u8,
    pub command: Command,
}

// How a command ends, as the command status wrapper (CSW) reports it.
#[derive(Clone, Copy, PartialEq, Eq, Debug)]
pub enum Status {
    Passed,
    Failed,
    // the host and the command disagree on direction or length
    PhaseError,
}

// bCSWStatus
impl From<Status> for u8 {
    ghost from_gives = { λ s n. n ≡ status_number s };

    fn from(status: Status) -> u8 {
        match status {
            Status::Passed => 0x00,
            Status::Failed => 0x01,
            Status::PhaseError => 0x02,
        }
    }
}
