// What went wrong with what a program was given is told on standard error, with how it is used.
// The program ends then; want of memory, or a stream that fails, goes on to where it ends.
ghost use Rattle.std.specs.Prelude.{◌≡◌, IfOk};
ghost use Rattle.std.specs.Result.{result_ok};

use std::fmt;

// What a call gave, or none: its error is told then.
pub fn told<R, T, E>(rt: &R, usage: &str, given: Result<T, E>) -> anyhow::Result<Option<T>>
where
    R: Eprint + AllocGlobal,
    T: Drop,
    E: fmt::Display + Drop,
    ensures { IfOk result (λ value. value ≡ result_ok given) }
{
    match given {
        Ok(value) => Ok(Some(value)),
        Err(error) => {
            eprintln!(rt; "{error}\n{usage}")?;
            Ok(None)
        }
    }
}
