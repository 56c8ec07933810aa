// Bad runs: pairs of a start and a length, with commas between them.
// Only their form is looked at here; whether a medium may have them is for its inspection to say.
ghost use Rattle.std.specs.Prelude.{◌≡◌, [], ◌∷◌, vec_items, MatchOption};
ghost use Rattle.fields.specs.Readings.{Reads};
ghost use Rattle.values.specs.Mistakes.{is_memory};
ghost use Rattle.values.specs.Runs.{pieces, pair_said, runs_said};

use crate::decimal::read_decimal;
use crate::error::Mistake;
use fields::words::first_at;
use model::layout::BadRun;
use std::alloc::Global;

const COLON: u8 = b':';

const COMMA: u8 = b',';

// What stands before the first mark and what stands behind it, or none where there is no mark.
fn cut(text: &[u8], mark: u8) -> Option<(&[u8], &[u8])>
    ensures { MatchOption result (pieces mark text.now ≡ text.now ∷ []) (λ p. pieces mark text.now ≡ p.0.now ∷ pieces mark p.1.now) }
{
    let at = first_at(text, mark)?;
    Some((&text[..at], &text[at + 1..]))
}

// `START:LENGTH`
fn read_pair(text: &[u8]) -> Option<BadRun>
    ensures { result ≡ pair_said text.now }
{
    let (start, count) = cut(text, COLON)?;
    if cut(count, COLON).is_some() {
        return None;
    }
    Some(BadRun {
        start: read_decimal(start)?,
        count: read_decimal(count)?,
    })
}

// `START:LENGTH,START:LENGTH`, at least one.
pub fn read_runs(heap: Global, text: &[u8]) -> Result<Vec<BadRun>, Mistake>
    ensures { Reads is_memory vec_items result (runs_said text.now) }
{
    let mut runs = Vec::new(heap);
    for pair in text.split(|c| *c == COMMA) {
        runs.push(read_pair(pair).ok_or(Mistake::MalformedValue)?)?;
    }
    Ok(runs)
}
