// Hexadecimal digits, read in either case and written in upper case.
// Two digits are a byte, the high one first.
ghost use Rattle.std.specs.Prelude.{◌≡◌, ◌<◌, ◌++◌, None, OnOk, vec_items, MatchOption};
ghost use Rattle.fields.specs.Hexadecimal.{digit_value, byte_value, lone_digit, hex_bytes, hex_text};
ghost use Rattle.fields.specs.Readings.{Reads, wants_memory};

use crate::error::LineError;
use std::alloc::{AllocError, Global};

// The value of a hexadecimal digit. Not by `to_digit`: what a script is written with, digits and event letters, is told case by case.
fn digit(c: char) -> Option<u8>
    ensures value { result ≡ digit_value c }
    ensures bound { MatchOption result (digit_value c ≡ None) (λ d. d < 16) }
{
    match c {
        '0'..='9' => Some(c as u8 - b'0'),
        'A'..='F' => Some(c as u8 - b'A' + 10),
        'a'..='f' => Some(c as u8 - b'a' + 10),
        _ => None,
    }
}

// The byte that two characters say.
fn byte_of(high: u8, low: u8) -> Option<u8>
    ensures { result ≡ byte_value high low }
{
    let high = digit(char::from(high))?;
    let low = digit(char::from(low))?;
    Some(16 * high + low)
}

// Why a last character that pairs up with no other is a mistake.
fn lone_digit(c: u8) -> LineError
    ensures { result ≡ lone_digit (digit_value c) }
{
    match digit(char::from(c)) {
        None => LineError::NotHexadecimal,
        Some(_) => LineError::OddDigits,
    }
}

// The bytes that a field says. Not by `hex::decode`, which tells an odd length before a character that is no digit.
pub fn read_field(heap: Global, field: &[u8]) -> Result<Vec<u8>, LineError>
    ensures { Reads wants_memory vec_items result (hex_bytes field.now) }
{
    let mut bytes = Vec::new(heap);
    let mut rest = field;
    // Two characters at a time: with `as_chunks` the one that is left over would be matched all the same.
    while let [high, low, tail @ ..] = rest {
        bytes.push(byte_of(*high, *low).ok_or(LineError::NotHexadecimal)?)?;
        rest = tail;
    }
    match rest {
        [] => Ok(bytes),
        [last, ..] => Err(lone_digit(*last)),
    }
}

// Adds the bytes as hexadecimal pairs, in upper case.
pub fn push_hex(heap: Global, line: &mut Vec<u8>, bytes: &[u8]) -> Result<(), AllocError>
    ensures { OnOk result (line.new.items ≡ line.old.items ++ hex_text bytes.now) }
{
    let text = hex::encode_upper(heap, bytes)?;
    line.extend_from_slice(text.as_bytes())?;
    Ok(())
}
