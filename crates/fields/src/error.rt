// Why a line is no event of the script.
// Each kind of mistake has a name of its own, so that nothing about a line is guessed.
ghost use Rattle.std.specs.Prelude.{◌≡◌, Some};
ghost use Rattle.fields.specs.Messages.{message_text};
ghost use Rattle.fields.specs.declared.error.LineError.TheVariants.{OutOfMemory};

use std::alloc::{AllocError, AllocFailed};
use std::error::Error;
use std::fmt;

#[derive(Clone, Copy, PartialEq, Eq, Debug)]
pub enum LineError {
    // the first word is none of the eight letters
    UnknownLetter,
    // the event needs a field more
    MissingField,
    // the event takes fewer fields
    TooManyFields,
    // a character of a field is no hexadecimal digit
    NotHexadecimal,
    // the digits of a field do not pair up to bytes
    OddDigits,
    // the interface is not one byte
    InterfaceWidth,
    // the clock is not eight digits
    ClockWidth,
    // there is no memory for the event's bytes
    OutOfMemory,
}

// Written by hand, as `From` below: a derive states neither the text nor which mistake a `?` makes, and contracts name both.
// No macro of the repository's own may write them either: the gate refuses an impl that one writes.
impl fmt::Display for LineError {
    ghost output = { λ e. Some (message_text e) };

    fn fmt<W: fmt::Write>(&self, f: &mut fmt::Formatter<W>) -> fmt::Result {
        f.write_str(match self {
            LineError::UnknownLetter => "unknown event letter",
            LineError::MissingField => "a field is missing",
            LineError::TooManyFields => "there is a field too many",
            LineError::NotHexadecimal => "a field has a character that is no hexadecimal digit",
            LineError::OddDigits => "a field has an odd number of digits",
            LineError::InterfaceWidth => "the interface is not one byte",
            LineError::ClockWidth => "the clock is not eight digits",
            LineError::OutOfMemory => "there is no memory for the event",
        })
    }
}

impl Error for LineError {}

impl From<AllocError> for LineError {
    ghost from_gives = { λ _ r. r ≡ OutOfMemory };

    fn from(_error: AllocError) -> LineError {
        LineError::OutOfMemory
    }
}

impl<T: Drop> From<AllocFailed<T>> for LineError {
    ghost from_gives = { λ _ r. r ≡ OutOfMemory };

    fn from(_refused: AllocFailed<T>) -> LineError {
        LineError::OutOfMemory
    }
}
