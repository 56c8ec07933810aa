// Whether the stick that the options say can be fitted.
// The medium is inspected before the layout, which needs its number of blocks.
ghost use Rattle.std.specs.Prelude.{◌≡◌, Some, length, vec_items};
ghost use Rattle.model.specs.Refusals.{refusal_number};
ghost use Rattle.options.specs.Choices.{fit_of};
ghost use Rattle.options.specs.Fits.{spare, memory_said, inspected, memory_fit, FitsZeros, reason_text, fit_error_text};
ghost use Rattle.options.specs.declared.choice.FitError.TheVariants.{Refused, OutOfMemory};

use crate::choice::{Fit, FitError, Make};
use medium::straight::Straight;
use medium::turning::Turning;
use medium::{Fitted, MOST_BLOCKS, PAGE};
use model::refusal::Refusal;
use std::alloc::{AllocError, Global};
use std::error::Error;
use std::fmt;

// The pages that a make needs more than blocks.
fn spare_pages(make: Make) -> u8
    ensures { result ≡ spare make }
{
    match make {
        Make::Straight => Straight::SPARE,
        Make::Turning => Turning::SPARE,
    }
}

// Written by hand, as `From` below, for the reason that stands at `LineError` of the crate `fields`.
impl fmt::Display for FitError {
    ghost output = { λ e. Some (fit_error_text e) };

    fn fmt<W: fmt::Write>(&self, f: &mut fmt::Formatter<W>) -> fmt::Result {
        match self {
            FitError::Refused(refusal) => {
                let number = u8::from(*refusal);
                let reason = reason(*refusal);
                write!(f, "refused {number}: {reason}")
            }
            FitError::OutOfMemory => write!(f, "there is no memory for the medium"),
        }
    }
}

impl Error for FitError {}

impl From<Refusal> for FitError {
    ghost from_gives = { λ refusal e. e ≡ Refused refusal };

    fn from(refusal: Refusal) -> FitError {
        FitError::Refused(refusal)
    }
}

impl From<AllocError> for FitError {
    ghost from_gives = { λ _ e. e ≡ OutOfMemory };

    fn from(_error: AllocError) -> FitError {
        FitError::OutOfMemory
    }
}

impl Fit {
    // The bytes of the medium's memory, of no more blocks than a medium may have.
    fn memory_bytes(&self) -> Result<usize, Refusal>
        ensures { result ≡ memory_said self.now.make self.now.blocks }
    {
        let blocks = self.blocks as usize;
        if blocks > MOST_BLOCKS {
            return Err(Refusal::Medium);
        }
        Ok(PAGE * (blocks + usize::from(spare_pages(self.make))))
    }

    // Inspects the medium on this memory, then the layout.
    fn inspect(&self, memory: &[u8]) -> Result<(), Refusal>
        ensures { result ≡ inspected (fit_of self.now) (length memory.now) }
    {
        match self.make {
            Make::Straight => Straight::inspect(memory, self.runs.as_slice())?,
            Make::Turning => Turning::inspect(memory, self.runs.as_slice())?,
        }
        layout::read::inspect(self.layout.as_slice(), self.blocks)
    }

    // Memory of zeros on which the stick passes inspection.
    pub fn zeroed_memory(&self, heap: Global) -> Result<Vec<u8>, FitError>
        ensures { FitsZeros vec_items result (memory_fit (fit_of self.now)) }
    {
        let bytes = self.memory_bytes()?;
        let memory = vec![in heap; 0; bytes]?;
        self.inspect(memory.as_slice())?;
        Ok(memory)
    }
}

// What is wrong with a stick that inspection refuses.
fn reason(refusal: Refusal) -> &'static str
    ensures { result.now ≡ reason_text (refusal_number refusal) }
{
    match refusal {
        Refusal::Layout => "the layout breaks a rule",
        _ => "the medium breaks a rule",
    }
}
