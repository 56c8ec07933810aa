// A unit's blocks between a medium and a buffer, one 512-byte part after another.
// The medium's fault goes on by `?` to the transfer, which adds how far it came.
ghost use Rattle.std.specs.Prelude.{◌≡◌, ◌+◌, ◌<◌, length, IfErr};
ghost use Rattle.model.specs.Blocks.{answer, filled, written};
ghost use Rattle.model.specs.Commands.{good_run};
ghost use Rattle.commands.specs.Transfers.{HasRoom, moved_of, loaded, kept};

use crate::span::Span;
use crate::stops::Stopped;
use medium::Medium;
use model::limits::BLOCK_BYTES;
use model::refusal::Fault;

// Reads the block of the span so many blocks on.
fn read_block<M: Medium>(medium: &M, span: Span, moved: u16, part: &mut [u8]) -> Result<(), Fault>
    requires { moved < span.count }
    ensures answer { result ≡ answer (M.meaning medium.now) (span.start + span.address + moved) (length part.old) }
    ensures buffer { part.new ≡ filled (M.meaning medium.now) (span.start + span.address + moved) part.old }
{
    let block = span.block(moved)?;
    medium.read(block, part)
}

// Not one function for both directions: a read changes the buffer alone and a write the medium alone, and their clauses say so.
fn write_block<M: Medium>(medium: &mut M, span: Span, moved: u16, part: &[u8]) -> Result<(), Fault>
    requires { moved < span.count }
    ensures answer { result ≡ answer (M.meaning medium.old) (span.start + span.address + moved) (length part.now) }
    ensures after { M.meaning medium.new ≡ written (M.meaning medium.old) (span.start + span.address + moved) part.now }
{
    let block = span.block(moved)?;
    medium.write(block, part)
}

// Reads the blocks of the span, each into the buffer's next 512 bytes. That it has room is asked by name, here and below: it is a fact of a
// span and a buffer, which the type of neither can say.
pub(crate) fn read_blocks<M: Medium>(
    medium: &M,
    span: Span,
    buffer: &mut [u8],
) -> Result<(), Stopped>
    requires { HasRoom span buffer.old }
    ensures moved { moved_of span.count result ≡ good_run span.count (span.start + span.address) (M.meaning medium.now) }
    ensures short { IfErr result (λ s. s.moved < span.count) }
    ensures buffer { buffer.new ≡ loaded span.count (span.start + span.address) (M.meaning medium.now) buffer.old }
{
    // By its place: of a buffer that `chunks_exact_mut` lent out, a proof knows the length afterwards, and no byte.
    for moved in 0..span.count {
        let at = BLOCK_BYTES * usize::from(moved);
        read_block(medium, span, moved, &mut buffer[at..at + BLOCK_BYTES]).map_err(|fault| Stopped {
            moved,
            fault,
        })?;
    }
    Ok(())
}

// Writes the blocks of the span, each from the buffer's next 512 bytes.
pub(crate) fn write_blocks<M: Medium>(
    medium: &mut M,
    span: Span,
    buffer: &[u8],
) -> Result<(), Stopped>
    requires { HasRoom span buffer.now }
    ensures moved { moved_of span.count result ≡ good_run span.count (span.start + span.address) (M.meaning medium.old) }
    ensures short { IfErr result (λ s. s.moved < span.count) }
    ensures after { M.meaning medium.new ≡ kept span.count (span.start + span.address) buffer.now (M.meaning medium.old) }
{
    for (moved, part) in (0..span.count).zip(buffer.chunks_exact(BLOCK_BYTES)) {
        write_block(medium, span, moved, part).map_err(|fault| Stopped { moved, fault })?;
    }
    Ok(())
}
