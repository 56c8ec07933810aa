// The work that a running stick does by itself: a recovery wipes its unit, some blocks at a step.
// It goes on in every phase: also while the stick idles or is gone.
ghost use Rattle.std.specs.Prelude.{◌≡◌, ◌<◌, length};
ghost use Rattle.model.specs.Control.{unit_at};
ghost use Rattle.model.specs.Recovery.{steps_done_of, work_on, worked};
ghost use Rattle.stick.specs.Meaning.{stick_of};

use super::Running;
use medium::Medium;
use recovery::zero_step;

impl<M: Medium> Running<M> {
    // The next step of the unit with this number.
    fn recover(&mut self, index: usize)
        requires { index < length self.old.layout.places }
        ensures stick { stick_of M.meaning self.new ≡ work_on self.old.layout index (steps_done_of (unit_at index (stick_of M.meaning self.old)).standing) (stick_of M.meaning self.old) }
        ensures layout { self.new.layout ≡ self.old.layout }
    {
        let place = self.layout.place(index);
        let done = self.units.steps_done(index);
        zero_step(&mut self.medium, place, done);
        self.units.advance(index, place.count);
    }

    // A work step, for the first recovering unit; with none recovering nothing happens.
    pub fn work(&mut self)
        ensures stick { stick_of M.meaning self.new ≡ worked self.old.layout (stick_of M.meaning self.old) }
        ensures layout { self.new.layout ≡ self.old.layout }
    {
        let count = self.layout.unit_count();
        if let Some(index) = self.units.first_recovering(count) {
            self.recover(index);
        }
    }
}
