// Control transfers of a running stick.
// Everything is weighed before anything is touched; what arrives is zeroed on every way out.
ghost use Rattle.std.specs.Prelude.{◌≡◌, ◌≤◌, [], length, replicate, IfOk};
ghost use Rattle.model.specs.Control.{controlled, request as request_outcome, served};
ghost use Rattle.model.specs.Sticks.{Stick};
ghost use Rattle.stick.specs.Meaning.{stick_of};
ghost use Rattle.stick.specs.Outcomes.{outcome_of, done_of, transfer_of, presence};

use super::Running;
use super::stage::DataStage;
use answers::answer::Answer;
use answers::answering::answer_from;
use formats::setup::{is_reading, read_setup};
use interfaces::descriptor::device_descriptor;
use medium::Medium;
use model::ids::Phase;
use model::refusal::Refusal;
use model::request::{Asked, Request};

// Zeroes arriving bytes when it goes, on whichever way that is.
struct Wipe<'a>(&'a mut [u8]);

impl Drop for Wipe<'_> {
    fn drop(self)
        ensures { self.exit.0.now ≡ replicate (length self.entry.0.now) 0 }
    {
        self.0.fill(0);
        let Wipe(_) = self;
    }
}

// Acceptance answers no byte.
fn nothing(done: Result<(), Refusal>) -> Result<Answer, Refusal>
    ensures outcome { (s : Stick) → outcome_of result s ≡ done_of done s }
    ensures none { IfOk result (λ a. a ≡ []) }
{
    done.map(|()| answer_from(&[], 0))
}

impl<M: Medium> Running<M> {
    // Refuses while the stick idles or is gone in an interface change.
    pub(super) fn presence(&self) -> Result<(), Refusal>
        ensures { result ≡ presence (stick_of M.meaning self.now).phase }
    {
        match self.phase {
            Phase::Present => Ok(()),
            Phase::Idle { .. } => Err(Refusal::Idle),
            Phase::Gone { .. } => Err(Refusal::Gone),
        }
    }

    // A listed request: what it answers, and what it changes. The buffer is only looked at here.
    fn serve(&mut self, asked: Asked, data: &[u8]) -> Result<Answer, Refusal>
        ensures outcome { outcome_of result (stick_of M.meaning self.new) ≡ request_outcome self.old.layout asked.request asked.length «data».now (stick_of M.meaning self.old) }
        ensures room { IfOk result (λ a. length a ≤ length «data».now) }
        ensures layout { self.new.layout ≡ self.old.layout }
    {
        let stage = DataStage {
            length: asked.length,
            data,
        };
        match asked.request {
            Request::DeviceDescriptor => {
                stage.cut(&device_descriptor(&self.layout, &self.interfaces))
            }
            Request::Bundle => stage.cut(&self.interfaces.bundle()),
            Request::LockData { address } => self.tell_lock_data(address, stage),
            Request::HighestUnit { interface } => self.tell_highest(interface, stage),
            Request::ClearJam { interface } => nothing(self.clear_jam(interface, stage)),
            Request::PutTo { put, address } => nothing(self.put(put, address, stage)),
        }
    }

    // A transfer by its bytes, before its buffer is touched.
    fn transfer(&mut self, setup: &[u8], data: &[u8]) -> Result<Answer, Refusal>
        ensures outcome { outcome_of result (stick_of M.meaning self.new) ≡ served self.old.layout setup.now «data».now (stick_of M.meaning self.old) }
        ensures room { IfOk result (λ a. length a ≤ length «data».now) }
        ensures layout { self.new.layout ≡ self.old.layout }
    {
        self.presence()?;
        let asked = read_setup(setup)?;
        self.serve(asked, data)
    }

    // A control transfer with its setup bytes and one buffer: how many bytes are answered at the buffer's front.
    pub fn control(&mut self, setup: &[u8], buffer: &mut [u8]) -> Result<usize, Refusal>
        ensures transfer { transfer_of result buffer.new (stick_of M.meaning self.new) ≡ controlled self.old.layout setup.now buffer.old (stick_of M.meaning self.old) }
        ensures layout { self.new.layout ≡ self.old.layout }
        ensures bound { IfOk result (λ n. n ≤ length buffer.new) }
    {
        if !is_reading(setup) {
            let arrived = Wipe(buffer);
            self.transfer(setup, arrived.0)?;
            return Ok(0);
        }
        let answer = self.transfer(setup, buffer)?;
        let bytes = answer.as_slice();
        let n = bytes.len();
        buffer[0..n].copy_from_slice(bytes);
        Ok(n)
    }
}
