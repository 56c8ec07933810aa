// Readings of a running stick: what is told of its units, cut to what is wanted.
// They only look at the stick, and at how long the buffer is; the answer goes into it afterwards.
ghost use Rattle.std.specs.Prelude.{◌≡◌, ◌≤◌, length, IfOk};
ghost use Rattle.model.specs.Control.{find_unit, tell_highest, tell_lock_data, with_interface};
ghost use Rattle.stick.specs.Meaning.{stick_of};
ghost use Rattle.stick.specs.Outcomes.{outcome_of};

use super::Running;
use super::stage::DataStage;
use answers::answer::Answer;
use medium::Medium;
use model::refusal::Refusal;
use model::request::UnitAddress;

impl<M: Medium> Running<M> {
    pub(super) fn tell_lock_data(
        &self,
        address: UnitAddress,
        stage: DataStage<'_>,
    ) -> Result<Answer, Refusal>
        ensures outcome { outcome_of result (stick_of M.meaning self.now) ≡ tell_lock_data self.now.layout (find_unit self.now.layout address.interface address.unit) address.interface address.unit stage.entry.length (length stage.entry.data.now) (stick_of M.meaning self.now) }
        ensures room { IfOk result (λ a. length a ≤ length stage.entry.data.now) }
    {
        let index = self.layout.find_unit(address).ok_or(Refusal::Absent)?;
        let blocks = self.layout.place(index).count;
        let whole = self.units.lock_data(index, blocks, address);
        stage.cut(whole.as_slice())
    }

    pub(super) fn tell_highest(
        &self,
        interface: u8,
        stage: DataStage<'_>,
    ) -> Result<Answer, Refusal>
        ensures outcome { outcome_of result (stick_of M.meaning self.now) ≡ with_interface self.now.layout interface (stick_of M.meaning self.now) (tell_highest self.now.layout interface stage.entry.length (length stage.entry.data.now) (stick_of M.meaning self.now)) }
        ensures room { IfOk result (λ a. length a ≤ length stage.entry.data.now) }
    {
        let counts = self.layout.unit_counts();
        let count = counts.get(usize::from(interface)).ok_or(Refusal::Absent)?;
        if stage.length != 1 {
            return Err(Refusal::WrongLength);
        }
        let highest = count.saturating_sub(1);
        stage.cut(&[highest])
    }
}
