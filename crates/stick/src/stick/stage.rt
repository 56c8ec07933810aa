// The data stage of a control transfer: the length that its setup gives, and the buffer that is handed over with it.
// An answer is cut to the length, and refused where the buffer has no room for it; what arrives has to be of that length.
ghost use Rattle.std.specs.Prelude.{◌≡◌, ◌≤◌, length, IfOk};
ghost use Rattle.model.specs.Control.{answered, sized};
ghost use Rattle.model.specs.Sticks.{Stick};
ghost use Rattle.parts.specs.Carries.{put_of};
ghost use Rattle.stick.specs.Outcomes.{outcome_of};

use answers::answer::Answer;
use answers::answering::answer_from;
use formats::setup::is_put_length;
use model::refusal::Refusal;
use model::request::Put;
use parts::put::UnitPut;
use parts::reading::read_put;

#[derive(Clone, Copy)]
pub(super) struct DataStage<'a> {
    // wLength
    pub length: u16,
    pub data: &'a [u8],
}

impl<'a> DataStage<'a> {
    // The first bytes of a whole answer, at most as many as are wanted, or a refusal where there is no room for them.
    pub(super) fn cut(self, whole: &[u8]) -> Result<Answer, Refusal>
        requires { length whole.now ≤ 119 }
        ensures outcome { (s : Stick) → outcome_of result s ≡ answered self.entry.length (length self.entry.data.now) whole.now s }
        ensures room { IfOk result (λ a. length a ≤ length self.entry.data.now) }
    {
        if self.data.len() < whole.len().min(usize::from(self.length)) {
            return Err(Refusal::ShortBuffer);
        }
        Ok(answer_from(whole, self.length))
    }

    // A Put to a unit by its bytes: its length is weighed first, and only then are its parts taken.
    pub(super) fn unit_put(self, put: Put) -> UnitPut<'a>
        ensures { put_of result ≡ sized put self.entry.length self.entry.data.now }
    {
        if is_put_length(put, self.length) && usize::from(self.length) == self.data.len() {
            read_put(put, self.data)
        } else {
            UnitPut::Misfit
        }
    }
}
