// The ways in which a command ends, each with its status and sense.
// None of them looks at the medium; how a transfer of blocks ends is told in `disk`.
ghost use Rattle.std.specs.Prelude.{◌≡◌, ℕ, ◌≤◌, min, List, length, take};
ghost use Rattle.model.specs.Blocks.{Block};
ghost use Rattle.model.specs.Commands.{failed, told};
ghost use Rattle.commands.specs.Endings.{ending_of, front};

use crate::ended::Ended;
use model::command::Status;
use model::sense::Sense;

// A command that ends with no data: nothing is answered, and nothing moved.
pub(crate) fn without_data(status: Status, sense: Sense) -> Ended
    ensures status { result.status ≡ status }
    ensures answered { result.answered ≡ 0 }
    ensures moved { result.moved ≡ 0 }
    ensures sense { result.sense ≡ sense }
{
    Ended {
        status,
        answered: 0,
        moved: 0,
        sense,
    }
}

// A command that fails before any data.
pub(crate) fn fail(sense: Sense) -> Ended
    ensures ending { (ds : List ℕ) (m : List Block) → ending_of result ds m ≡ failed sense m }
    ensures bound { result.answered ≡ 0 }
{
    without_data(Status::Failed, sense)
}

// The first bytes of an answer at the buffer's front, as many as the allocation length allows.
pub(crate) fn tell(bytes: &[u8], allocation: u16, buffer: &mut [u8]) -> Ended
    requires { min (length bytes.now) allocation ≤ length buffer.old }
    ensures ending { (m : List Block) → ending_of result buffer.new m ≡ told (take allocation bytes.now) m }
    ensures bound { result.answered ≤ length buffer.new }
    ensures buffer { buffer.new ≡ front (take allocation bytes.now) buffer.old }
{
    let n = bytes.len().min(usize::from(allocation));
    buffer[..n].copy_from_slice(&bytes[..n]);
    Ended {
        status: Status::Passed,
        answered: n,
        moved: n as u32,
        sense: Sense::None,
    }
}
