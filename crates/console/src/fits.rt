// The stick that a command line says, up to the memory of its medium.
// The medium is fitted by the program, since its make is a type there.
ghost use Rattle.std.specs.Prelude.{◌≡◌, map, length, string_bytes, IfOk, IfSome, replicate};
ghost use Rattle.std.specs.Option.{option_map};
ghost use Rattle.std.specs.Result.{result_ok};
ghost use Rattle.options.specs.Choices.{fit_of, fit_said};
ghost use Rattle.options.specs.Fits.{memory_fit};

use crate::telling::told;
use options::choice::{Fit, FitError};
use options::read::read_options;
use values::error::Mistake;

// The stick that these words say, or none: what is wrong with them is told on standard error then, with the usage.
pub fn chosen_fit<R: Eprint + AllocGlobal>(
    rt: &R,
    usage: &str,
    words: &[String],
) -> anyhow::Result<Option<Fit>>
    ensures { IfOk result (λ chosen. option_map fit_of chosen ≡ result_ok (fit_said (map string_bytes words.now))) }
{
    match read_options(rt.alloc(), words) {
        Err(Mistake::OutOfMemory) => Err(Mistake::OutOfMemory.into()),
        chosen => told(rt, usage, chosen),
    }
}

// Memory of zeros for a stick that passes inspection, or none: the refusal is told on standard error then, behind the stick's name.
pub fn inspected_memory<R: Eprint + AllocGlobal>(
    rt: &R,
    stick: &str,
    fit: &Fit,
) -> anyhow::Result<Option<Vec<u8>>>
    ensures zeros { IfOk result (λ memory. IfSome memory (λ v. v.items ≡ replicate (length v.items) 0)) }
    ensures inspected { IfOk result (λ memory. option_map (λ v. length v.items) memory ≡ result_ok (memory_fit (fit_of fit.now))) }
{
    match fit.zeroed_memory(rt.alloc()) {
        Ok(memory) => Ok(Some(memory)),
        Err(FitError::OutOfMemory) => Err(FitError::OutOfMemory.into()),
        Err(error) => {
            eprintln!(rt; "{stick}{error}")?;
            Ok(None)
        }
    }
}
