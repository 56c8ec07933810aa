// The command block wrapper (CBW), which begins every bulk command: signature, tag (4), transfer length (4), flags, unit,
// command length, command (16). Taken apart by patterns, and judged by itself.
ghost use Rattle.std.specs.Prelude.{◌≡◌, ◌%◌, ◌&&◌, length, ok_or, ◌==◌, nat_le};
ghost use Rattle.model.specs.Bytes.{between};
ghost use Rattle.model.specs.Refusals.{number_of};
ghost use Rattle.model.specs.Wrappers.{command_length, command_in, is_signed, cbw_in, judged_cbw};
ghost use Rattle.model.specs.declared.refusal.Refusal.TheVariants.{BadWrapper};

use model::command::{Cbw, Command, Direction};
use model::refusal::Refusal;
use model::sense::Sense;

const CBW_LENGTH: usize = 31;

const CBW_SIGNATURE: [u8; 4] = *b"USBC";

// Where the command begins, and the bytes that a CBW has for it.
const COMMAND_START: usize = 15;

const COMMAND_BYTES: u8 = 16;

// Operation codes, the first byte of a command
const TEST_UNIT_READY: u8 = 0x00;

const REQUEST_SENSE: u8 = 0x03;

const INQUIRY: u8 = 0x12;

const READ_CAPACITY_10: u8 = 0x25;

const READ_10: u8 = 0x28;

const WRITE_10: u8 = 0x2A;

// Bit 0 of a command's second byte: DESC of REQUEST SENSE, EVPD of INQUIRY. Neither is served.
const DESC_OR_EVPD: u8 = 0x01;

// The bytes of a command by the group of its operation code, and of any command at the least.
const GROUP_0_BYTES: u8 = 6;

const GROUP_1_BYTES: u8 = 10;

const FEWEST_BYTES: u8 = 1;

// INQUIRY's page code where EVPD is clear.
const NO_PAGE: u8 = 0x00;

// The bytes of a listed command; of an unlisted one any command length is in order.
fn command_length(code: u8) -> u8
    ensures { result ≡ command_length code }
{
    match code {
        TEST_UNIT_READY | REQUEST_SENSE | INQUIRY => GROUP_0_BYTES,
        READ_CAPACITY_10 | READ_10 | WRITE_10 => GROUP_1_BYTES,
        _ => FEWEST_BYTES,
    }
}

fn is_plain(options: u8) -> bool
    ensures { result ≡ (options % 2 == 0) }
{
    options & DESC_OR_EVPD == 0
}

fn read_command(cbw: &[u8]) -> Command
    requires { length cbw.now ≡ 31 }
    ensures { result ≡ command_in cbw.now }
{
    match &cbw[COMMAND_START..] {
        [TEST_UNIT_READY, ..] => Command::TestUnitReady,
        [REQUEST_SENSE, options, _, _, allocation, ..] if is_plain(*options) =>
            Command::RequestSense {
                allocation: *allocation,
            },
        [INQUIRY, options, NO_PAGE, a0, a1, ..] if is_plain(*options) => Command::Inquiry {
            allocation: u16::from_be_bytes([*a0, *a1]),
        },
        [REQUEST_SENSE | INQUIRY, ..] => Command::Rejected {
            sense: Sense::InvalidField,
        },
        [READ_CAPACITY_10, ..] => Command::ReadCapacity,
        [READ_10, _, a0, a1, a2, a3, _, high, low, ..] => Command::Read {
            address: u32::from_be_bytes([*a0, *a1, *a2, *a3]),
            count: u16::from_be_bytes([*high, *low]),
        },
        [WRITE_10, _, a0, a1, a2, a3, _, high, low, ..] => Command::Write {
            address: u32::from_be_bytes([*a0, *a1, *a2, *a3]),
            count: u16::from_be_bytes([*high, *low]),
        },
        _ => Command::Rejected {
            sense: Sense::UnlistedCommand,
        },
    }
}

fn is_signed(cbw: &[u8]) -> bool
    ensures { result ≡ is_signed cbw.now }
{
    cbw.starts_with(&CBW_SIGNATURE)
}

// Whether a command length is one at all, and covers the command with this operation code. A length of 0 covers none.
fn is_covered(length: u8, code: u8) -> bool
    ensures { result ≡ (between 1 16 length && nat_le (command_length code) length) }
{
    (command_length(code)..=COMMAND_BYTES).contains(&length)
}

// What a CBW asks for, or the refusal of one that is not in order.
pub fn read_cbw(cbw: &[u8]) -> Result<Cbw, Refusal>
    ensures { result ≡ ok_or (cbw_in cbw.now) BadWrapper }
{
    let [
        _,
        _,
        _,
        _,
        t0,
        t1,
        t2,
        t3,
        h0,
        h1,
        h2,
        h3,
        flags,
        unit,
        length,
        code,
        ..
    ] = *cbw
    else {
        return Err(Refusal::BadWrapper);
    };
    if cbw.len() != CBW_LENGTH || !is_signed(cbw) || !is_covered(length, code) {
        return Err(Refusal::BadWrapper);
    }
    Ok(Cbw {
        tag: u32::from_le_bytes([t0, t1, t2, t3]),
        total: u32::from_le_bytes([h0, h1, h2, h3]),
        direction: Direction::try_from(flags)?,
        unit,
        command: read_command(cbw),
    })
}

// The judgement of a CBW by its bytes and the highest unit of its interface: one for no such unit is not in order either.
pub fn judge_cbw(cbw: &[u8], highest: u8) -> Result<(), Refusal>
    ensures { number_of result ≡ judged_cbw cbw.now highest }
{
    let read = read_cbw(cbw)?;
    if read.unit > highest {
        return Err(Refusal::BadWrapper);
    }
    Ok(())
}
