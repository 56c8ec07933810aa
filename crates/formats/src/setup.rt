// The 8 setup bytes of a control transfer: bmRequestType, bRequest, wValue, wIndex, wLength.
// Taken apart by patterns, and judged by themselves.
ghost use Rattle.std.specs.Prelude.{◌≡◌, IfErr, false};
ghost use Rattle.std.specs.Range.{range_inclusive_start, range_inclusive_end, range_inclusive_exhausted};
ghost use Rattle.std.specs.Result.{result_ok};
ghost use Rattle.model.specs.Bytes.{between};
ghost use Rattle.model.specs.Refusals.{number_of};
ghost use Rattle.model.specs.Requests.{descriptor_asked, requested, length_allowed, judged_setup, is_reading, shortest, longest};
ghost use Rattle.model.specs.declared.refusal.Refusal.TheVariants.{Unlisted};

use crate::access::ACCESS_BYTES;
use model::limits::{HINT_BYTES, PHRASE_BYTES};
use model::refusal::Refusal;
use model::request::{Asked, Put, Request, UnitAddress};
use std::ops::RangeInclusive;

// bmRequestType: standard, to the device, answered; and of the class, to an interface, answered or arriving.
const STANDARD_IN: u8 = 0x80;

const CLASS_IN: u8 = 0xA1;

const CLASS_OUT: u8 = 0x21;

// The lowest bmRequestType whose bit 7 says that the data go to the host.
const TO_HOST: u8 = 0x80;

// bRequest
const GET_DESCRIPTOR: u8 = 0x06;

const PUT: u8 = 0xFC;

const GET_LOCK_IN: u8 = 0xFD;

const GET_HIGHEST_UNIT: u8 = 0xFE;

const CLEAR_JAM: u8 = 0xFF;

// wValue of the two descriptors
const DEVICE: u16 = 0x0100;

const CONFIGURATION: u16 = 0x0200;

// The bytes of a part around its text, two before it and one behind; the most that a passphrase and a hint have; and the bytes of access data.
const AROUND: u16 = 3;

const PHRASE: u16 = PHRASE_BYTES as u16;

const HINT: u16 = HINT_BYTES as u16;

const ACCESS: u16 = ACCESS_BYTES as u16;

fn descriptor_asked(value: u16) -> Result<Request, Refusal>
    ensures asked { result_ok result ≡ descriptor_asked value }
    ensures refusal { IfErr result (λ r. r ≡ Unlisted) }
{
    match value {
        DEVICE => Ok(Request::DeviceDescriptor),
        CONFIGURATION => Ok(Request::Bundle),
        _ => Err(Refusal::Unlisted),
    }
}

// What the setup bytes ask for. They are unlisted where they are not 8 bytes, or no wLength would make them a listed request.
pub fn read_setup(setup: &[u8]) -> Result<Asked, Refusal>
    ensures asked { result_ok result ≡ requested setup.now }
    ensures refusal { IfErr result (λ r. r ≡ Unlisted) }
{
    let [
        request_type,
        request_code,
        value_low,
        value_high,
        index_low,
        index_high,
        length_low,
        length_high,
    ] = *setup
    else {
        return Err(Refusal::Unlisted);
    };
    let value = u16::from_le_bytes([value_low, value_high]);
    let interface = index_low;
    let address = UnitAddress {
        interface,
        unit: value_high,
    };
    let request = match (request_type, request_code) {
        (STANDARD_IN, GET_DESCRIPTOR) if interface == 0 && index_high == 0 => descriptor_asked(
            value,
        )?,
        (CLASS_IN, GET_LOCK_IN) if value_low == 0 => Request::LockData { address },
        (CLASS_IN, GET_HIGHEST_UNIT) if value == 0 => Request::HighestUnit { interface },
        (CLASS_OUT, CLEAR_JAM) if value == 0 => Request::ClearJam { interface },
        (CLASS_OUT, PUT) => Request::PutTo {
            put: Put::try_from(value_low)?,
            address,
        },
        _ => return Err(Refusal::Unlisted),
    };
    let length = u16::from_le_bytes([length_low, length_high]);
    Ok(Asked { request, length })
}

// Whether the buffer is to be filled. In every other transfer it holds arriving data.
pub fn is_reading(setup: &[u8]) -> bool
    ensures { result ≡ is_reading setup.now }
{
    match setup {
        [request_type, _, _, _, _, _, _, _] => *request_type >= TO_HOST,
        _ => false,
    }
}

// The lengths that a Put may have: each part has its bytes around, and a passphrase or a hint, which may be empty.
fn put_lengths(put: Put) -> RangeInclusive<u16>
    ensures shortest { range_inclusive_start result ≡ shortest put }
    ensures longest { range_inclusive_end result ≡ longest put }
    ensures unspent { range_inclusive_exhausted result ≡ false }
{
    match put {
        Put::StorePassphrase => 2 * AROUND..=2 * AROUND + PHRASE + HINT,
        Put::MatchPassphrase | Put::ErasePassphrase => AROUND..=AROUND + PHRASE,
        Put::ChangePassphrase => 3 * AROUND..=3 * AROUND + 2 * PHRASE + HINT,
        Put::EraseForgottenPassphrase | Put::LockAgain => 0..=0,
        Put::ChangeInterfaceAccess => ACCESS..=ACCESS,
    }
}

// Whether a Put may have this wLength.
pub fn is_put_length(put: Put, length: u16) -> bool
    ensures { result ≡ between (shortest put) (longest put) length }
{
    put_lengths(put).contains(&length)
}

// Whether a request may have this wLength, whatever arrives with it.
fn is_length_allowed(request: Request, length: u16) -> bool
    ensures { result ≡ length_allowed request length }
{
    match request {
        Request::DeviceDescriptor | Request::Bundle | Request::LockData { .. } => true,
        Request::HighestUnit { .. } => length == 1,
        Request::ClearJam { .. } => length == 0,
        Request::PutTo { put, .. } => is_put_length(put, length),
    }
}

// The judgement of a setup by its bytes alone: it may be unlisted, or have a wLength that is not allowed.
pub fn judge_setup(setup: &[u8]) -> Result<(), Refusal>
    ensures { number_of result ≡ judged_setup setup.now }
{
    let asked = read_setup(setup)?;
    if !is_length_allowed(asked.request, asked.length) {
        return Err(Refusal::WrongLength);
    }
    Ok(())
}
