// A script served to a stick, from line to event to record.
// Each record is written before the next line is read.
ghost use Rattle.std.specs.Prelude.{◌≡◌, true, false, None, Ok, [], ◌∷◌, ◌++◌, is_ok, IfOk, IfSome};
ghost use Rattle.std.specs.List.{AllByRecursion};
ghost use Rattle.std.specs.Str.Lines.{lines};
ghost use Rattle.model.specs.Events.{step};
ghost use Rattle.events.specs.Happenings.{event_of};
ghost use Rattle.stick.specs.Meaning.{stick_of};
ghost use Rattle.lines.specs.Lines.{line_said};
ghost use Rattle.record.specs.Buffers.{handed_event};
ghost use Rattle.record.specs.Replies.{reply_line};
ghost use Rattle.console.specs.Scripts.{stick_after};

use crate::serving::serve_lines;
use events::Event;
use lines::line::read_line;
use medium::Medium;
use record::buffer::handed;
use record::turn::turn_line;
use std::alloc::{AllocError, Global};
use std::io::Read;
use stick::stick::Running;
use trial::run::take_turn_on;
use trial::turn::Turn;

// Performs an event: the stick moves on, and the record of its reply is the answer, with the newline.
// The stick stays where it is from line to line: to move it for each would cost more than most events.
fn answered<M: Medium>(
    heap: Global,
    stick: &mut Running<M>,
    event: Event,
) -> Result<Vec<u8>, AllocError>
    ensures next { IfOk result (λ _. stick_of M.meaning stick.new ≡ (step stick.old.layout (stick_of M.meaning stick.old) (handed_event (event_of event))).next) }
    ensures record { IfOk result (λ v. v.items ≡ reply_line (step stick.old.layout (stick_of M.meaning stick.old) (handed_event (event_of event))).reply ++ 0x0A ∷ []) }
    ensures layout { stick.new.layout ≡ stick.old.layout }
{
    let event = handed(heap, event)?;
    let mut turn = Turn::new(event);
    take_turn_on(stick, &mut turn);
    let mut record = turn_line(heap, &turn)?;
    record.push(b'\n')?;
    Ok(record)
}

// Performs the event of a line, and writes its record.
fn serve_line<R, M>(rt: &R, stick: &mut Running<M>, line: &[u8]) -> anyhow::Result<()>
where
    R: Print + AllocGlobal,
    M: Medium,
    ensures said { IfOk result (λ _. is_ok (line_said line.now) ≡ true) }
    ensures blank { line_said line.now ≡ Ok None → result ≡ Ok tt }
    ensures left { line_said line.now ≡ Ok None → stick.new ≡ stick.old }
    ensures next { IfOk result (λ _. stick_of M.meaning stick.new ≡ stick_after stick.old.layout (stick_of M.meaning stick.old) (line_said line.now)) }
    ensures layout { stick.new.layout ≡ stick.old.layout }
{
    match read_line(rt.alloc(), line)? {
        None => Ok(()),
        Some(event) => {
            let record = answered(rt.alloc(), stick, event)?;
            rt.write_all(record.as_slice())?;
            Ok(())
        }
    }
}

// Serves the events of a script, and says whether it got to the end: a malformed line is told on standard error and ends it.
// One that did not get there had a line that is not blank; no clause says more of it, nor what was written: memory and standard output have
// no contract.
pub fn serve_script<R, B, M>(rt: &R, source: B, mut stick: Running<M>) -> anyhow::Result<bool>
where
    R: Print + Eprint + AllocGlobal,
    B: Read + Drop,
    M: Medium + Drop,
    ensures ended { IfOk result (λ ended. ended ≡ true → IfSome (B.remaining source) (λ xs. AllByRecursion (λ line. is_ok (line_said line) ≡ true) (lines xs))) }
    ensures stopped { IfOk result (λ ended. ended ≡ false → IfSome (B.remaining source) (λ xs. AllByRecursion (λ line. line_said line ≡ Ok None) (lines xs) → ⊥)) }
{
    let served = serve_lines(
        rt,
        source,
        "",
        &mut stick,
        |stick, _, line|
            ensures said { IfOk result (λ _. is_ok (line_said line.now) ≡ true) }
            ensures blank { line_said line.now ≡ Ok None → is_ok result ≡ true }
        {
            serve_line(rt, stick, line)?;
            Ok(stick)
        },
    )?;
    Ok(served.is_some())
}
