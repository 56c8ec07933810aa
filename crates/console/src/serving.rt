// Lines of a script, each served before the next is read.
// What serving a line keeps, serving them all keeps.
ghost use Rattle.std.specs.Prelude.{◌≡◌, ℕ, Bool, true, Ok, IfOk, IfSome, IfNone};
ghost use Rattle.std.specs.Str.Lines.{lines};
ghost use Rattle.console.specs.Turns.{EachServed, OneRefused};

use anyhow::anyhow;
use std::io::{BufRead, BufReader, Read};

// Serves each line, with its number from 1 on, to what the lines before made. What is wrong with a line is told on standard error behind
// the place that the lines come from; nothing more is read then, and the result is none. What keeps a line from being read is an error.
pub fn serve_lines<R, B, S, F>(
    rt: &R,
    source: B,
    place: &str,
    mut state: S,
    serve: F,
) -> anyhow::Result<Option<S>>
where
    R: Eprint + AllocGlobal,
    B: Read + Drop,
    S: Drop,
    F: Fn(S, u64, &[u8]) -> anyhow::Result<S>,
    requires { F.IsAlwaysCallable serve }
    ensures kept { (p : S → Bool) → p state ≡ true → ((s : S) (n : ℕ) (line : _) (t : S) → p s ≡ true → F.post serve s n line (Ok t) → p t ≡ true) → IfOk result (λ o. IfSome o (λ t. p t ≡ true)) }
    ensures each { IfOk result (λ o. IfSome o (λ t. IfSome (B.remaining source) (λ xs. EachServed (F.post serve) state (lines xs) t))) }
    ensures refused { IfOk result (λ o. IfNone o (IfSome (B.remaining source) (λ xs. OneRefused (F.post serve) state (lines xs)))) }
{
    // A count that saturates, which a range of numbers does not.
    let mut number = 0u64;
    for line in BufReader::new(rt.alloc(), source)?.lines(rt.alloc()) {
        number = number.saturating_add(1);
        let line = line.map_err(|error| anyhow!("{place}line {number}: {error}"))?;
        match serve(state, number, line.as_bytes()) {
            Ok(next) => state = next,
            Err(error) => {
                eprintln!(rt; "{place}line {number}: {error}")?;
                return Ok(None);
            }
        }
    }
    Ok(Some(state))
}
