// Why a command line is none of the bench's.
// All that can be wrong with the form of a value is one mistake; want of memory is told apart from it.
ghost use Rattle.std.specs.Prelude.{◌≡◌, Some};
ghost use Rattle.values.specs.Messages.{message_text};
ghost use Rattle.values.specs.Mistakes.{mistake_of};
ghost use Rattle.values.specs.declared.error.Mistake.TheVariants.{OutOfMemory};

use fields::error::LineError;
use std::alloc::{AllocError, AllocFailed};
use std::error::Error;
use std::fmt;

#[derive(Clone, Copy, PartialEq, Eq, Debug)]
pub enum Mistake {
    // an argument that is no option
    UnknownOption,
    // an option with nothing behind it
    MissingValue,
    // an option that was given before
    RepeatedOption,
    // a value that is not of its option's form
    MalformedValue,
    // there is no memory for the options
    OutOfMemory,
}

// Written by hand, as `From` below, for the reason that stands at `LineError` of the crate `fields`.
impl fmt::Display for Mistake {
    ghost output = { λ m. Some (message_text m) };

    fn fmt<W: fmt::Write>(&self, f: &mut fmt::Formatter<W>) -> fmt::Result {
        f.write_str(match self {
            Mistake::UnknownOption => "unknown option",
            Mistake::MissingValue => "an option has no value",
            Mistake::RepeatedOption => "an option is given twice",
            Mistake::MalformedValue => "a value is not of its option's form",
            Mistake::OutOfMemory => "there is no memory for the options",
        })
    }
}

impl Error for Mistake {}

impl From<LineError> for Mistake {
    ghost from_gives = { λ e r. r ≡ mistake_of e };

    fn from(error: LineError) -> Mistake {
        match error {
            LineError::OutOfMemory => Mistake::OutOfMemory,
            _ => Mistake::MalformedValue,
        }
    }
}

impl From<AllocError> for Mistake {
    ghost from_gives = { λ _ r. r ≡ OutOfMemory };

    fn from(_error: AllocError) -> Mistake {
        Mistake::OutOfMemory
    }
}

impl<T: Drop> From<AllocFailed<T>> for Mistake {
    ghost from_gives = { λ _ r. r ≡ OutOfMemory };

    fn from(_refused: AllocFailed<T>) -> Mistake {
        Mistake::OutOfMemory
    }
}
