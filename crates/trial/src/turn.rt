// An event of a run, and what the stick replied to it.
// The event's buffer holds afterwards what the stick left in it.
ghost use Rattle.std.specs.Prelude.{◌≡◌, Some, None, Ok};
ghost use Rattle.trial.specs.Turns.{done_with};

use events::Event;
use model::refusal::Refusal;
use scsi::status::CSW_LENGTH;
use stick::completion::Completion;

// What an event that is not refused answers: the CSW of a bulk command, and how many bytes at the front of the handed buffer.
#[derive(Clone, Copy, PartialEq, Eq)]
pub struct Done {
    pub csw: Option<[u8; CSW_LENGTH]>,
    pub answered: usize,
}

pub type Reply = Result<Done, Refusal>;

// No event was performed yet, or one that answers nothing.
pub(crate) const NOTHING: Reply = Ok(Done {
    csw: None,
    answered: 0,
});

// So many bytes, and no CSW.
impl From<usize> for Done {
    ghost from_gives = { λ n d. d ≡ done_with None n };

    fn from(answered: usize) -> Done {
        Done {
            csw: None,
            answered,
        }
    }
}

impl From<Completion> for Done {
    ghost from_gives = { λ c d. d ≡ done_with (Some c.csw) c.answered };

    fn from(completion: Completion) -> Done {
        Done {
            csw: Some(completion.csw),
            answered: completion.answered,
        }
    }
}

#[derive(Drop)]
pub struct Turn {
    pub event: Event,
    pub reply: Reply,
}

impl Turn {
    // A turn that is still to be taken.
    pub fn new(event: Event) -> Turn
        ensures event { result.event ≡ «event» }
        ensures reply { result.reply ≡ Ok (done_with None 0) }
    {
        Turn {
            event,
            reply: NOTHING,
        }
    }
}
