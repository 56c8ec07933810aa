// Reads the arguments of a command line: pairs of an option and its value, in any order.
// What is not given is the bench's own.
ghost use Rattle.std.specs.Prelude.{◌≡◌, map, IfOk, string_bytes};
ghost use Rattle.options.specs.Choices.{choice_of, fit_of, nothing, filled, choices_said, fit_said};
ghost use Rattle.fields.specs.Readings.{Reads};
ghost use Rattle.values.specs.Mistakes.{is_memory};

use crate::choice::{Chosen, Fit, Make};
use crate::set::lone;
use std::alloc::{AllocError, Global};
use values::error::Mistake;

pub const USAGE: &str =
    "usage: bench [--layout HEX] [--medium straight|turning] [--blocks N] [--bad START:LENGTH[,START:LENGTH]...] < SCRIPT";

// The bench's own stick: 64 straight good blocks, one unit on the first 40, and zeros for idVendor, product base and bcdDevice.
pub const OWN_LAYOUT: [u8; 16] = [0, 0, 0, 0, 0, 0, 1, 1, 0, 0, 0, 0, 40, 0, 0, 0];

pub const OWN_BLOCKS: u32 = 64;

impl Chosen {
    // The bench's own fills what was not chosen.
    fn filled(self, heap: Global) -> Result<Fit, AllocError>
        ensures { IfOk result (λ f. fit_of f ≡ filled (choice_of self)) }
    {
        let Chosen {
            layout,
            make,
            blocks,
            runs,
        } = self;
        let layout = match layout {
            Some(bytes) => bytes,
            None => OWN_LAYOUT.to_vec(heap)?,
        };
        Ok(Fit {
            layout,
            make: make.unwrap_or(Make::Straight),
            blocks: blocks.unwrap_or(OWN_BLOCKS),
            runs: runs.unwrap_or(Vec::new(heap)),
        })
    }
}

fn choose(heap: Global, words: &[String]) -> Result<Chosen, Mistake>
    ensures { Reads is_memory choice_of result (choices_said (map string_bytes words.now) nothing) }
{
    let mut chosen = Chosen::default();
    let mut rest = words;
    // Two words at a time: with `as_chunks` the word that is left over would be matched all the same.
    while let [word, value, tail @ ..] = rest {
        chosen.take(heap, word.as_str(), value.as_str())?;
        rest = tail;
    }
    match rest {
        [] => Ok(chosen),
        [last, ..] => Err(lone(last.as_str())),
    }
}

// The stick that the arguments behind the program's name say.
pub fn read_options(heap: Global, words: &[String]) -> Result<Fit, Mistake>
    ensures { Reads is_memory fit_of result (fit_said (map string_bytes words.now)) }
{
    let chosen = choose(heap, words)?;
    Ok(chosen.filled(heap)?)
}
