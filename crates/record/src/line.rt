// Writes the record of an event: its number, then what it was answered with.
// The caller adds the newline.
ghost use Rattle.std.specs.Prelude.{◌≡◌, ◌++◌, IfOk};
ghost use Rattle.record.specs.Records.{record_line};

use fields::digits::push_hex;
use fields::words::BLANK;
use std::alloc::{AllocError, Global};

// The record line of an event that is answered with `number` and perhaps with a CSW, then with bytes.
pub(crate) fn record_line(
    heap: Global,
    number: u8,
    csw: &[u8],
    answered: &[u8],
) -> Result<Vec<u8>, AllocError>
    ensures { IfOk result (λ v. v.items ≡ record_line number (csw.now ++ answered.now)) }
{
    let mut line = number.to_string(heap)?.into_bytes();
    if csw.is_empty() && answered.is_empty() {
        return Ok(line);
    }
    line.push(BLANK)?;
    push_hex(heap, &mut line, csw)?;
    push_hex(heap, &mut line, answered)?;
    Ok(line)
}
