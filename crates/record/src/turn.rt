// The record of a turn: what the stick replied to its event.
// The bytes that were answered are those at the front of the event's buffer, where the stick left them.
ghost use Rattle.std.specs.Prelude.{◌≡◌, take, IfOk};
ghost use Rattle.record.specs.Replies.{reply_line};
ghost use Rattle.trial.specs.Turns.{reply_in, reply_of};

use crate::line::record_line;
use std::alloc::{AllocError, Global};
use trial::turn::{Reply, Turn};

fn front(buffer: &[u8], count: usize) -> &[u8]
    ensures { result.now ≡ take count buffer.now }
{
    buffer.get(..count).unwrap_or(buffer)
}

// The line of a reply, with the buffer that it was left in.
fn line_of(heap: Global, reply: Reply, buffer: &[u8]) -> Result<Vec<u8>, AllocError>
    ensures { IfOk result (λ v. v.items ≡ reply_line (reply_of reply buffer.now)) }
{
    match reply {
        Err(refusal) => record_line(heap, u8::from(refusal), &[], &[]),
        Ok(done) => {
            let csw = done
                .csw
                .as_ref()
                .map_or([].as_slice(), |csw| csw.as_slice());
            record_line(heap, 0, csw, front(buffer, done.answered))
        }
    }
}

// The line of a turn that was taken.
pub fn turn_line(heap: Global, turn: &Turn) -> Result<Vec<u8>, AllocError>
    ensures { IfOk result (λ v. v.items ≡ reply_line (reply_in turn.now)) }
{
    line_of(heap, turn.reply, turn.event.buffer())
}
