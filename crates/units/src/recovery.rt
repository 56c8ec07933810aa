// What work steps see and make of the units that recover.
// Past the table there are only new units, and nothing is kept of them.
ghost use Rattle.std.specs.Prelude.{◌≡◌, ◌+◌, ◌*◌, ◌<◌, true, length, take, MatchOption, nat_le, slice_index_or};
ghost use Rattle.model.specs.Control.{alter};
ghost use Rattle.model.specs.Recovery.{is_recovering, steps_done_of, first_recovering, advanced};
ghost use Rattle.model.specs.Units.{new_unit};
ghost use Rattle.units.specs.Records.{record_of, sound_row};

use crate::row::Row;
use crate::rows::Rows;
use model::limits::STEP_BLOCKS;
use model::lock::LockState;

impl Row {
    // Whether a recovery is under way.
    fn is_recovering(&self) -> bool
        ensures { result ≡ is_recovering (record_of self.now).standing }
    {
        matches!(self.state, LockState::Recovering { .. })
    }

    // A unit that does not recover has no steps done.
    fn steps_done(&self) -> u32
        ensures { result ≡ steps_done_of (record_of self.now).standing }
    {
        match self.state {
            LockState::Recovering { steps_done } => steps_done,
            LockState::Impersonal | LockState::Locked | LockState::Unlocked => 0,
        }
    }

    // One work step of a unit of so many blocks. After the step that reaches the last block nothing is left of the record but the sense.
    // Ends are summed up in 64 bits, so no sum wraps.
    fn advance(&mut self, blocks: u32)
        requires { sound_row self.old ≡ true }
        ensures record { record_of self.new ≡ advanced (nat_le blocks (16 * (steps_done_of (record_of self.old).standing + 1))) (record_of self.old).standing (record_of self.old) }
        ensures sound { sound_row self.new ≡ true }
    {
        if let LockState::Recovering { steps_done } = self.state {
            if u64::from(blocks) <= u64::from(STEP_BLOCKS) * (u64::from(steps_done) + 1) {
                self.wipe();
            } else {
                self.state = LockState::Recovering {
                    steps_done: steps_done + 1,
                };
            }
        }
    }
}

impl Rows {
    // The number of the first of the units before `end` that recovers, or none.
    pub fn first_recovering(&self, end: usize) -> Option<usize>
        ensures { MatchOption result (first_recovering (take end self.now) ≡ length (take end self.now)) (λ v. (v ≡ first_recovering (take end self.now)) × (v < length (take end self.now))) }
    {
        self.rows.iter().take(end).position(Row::is_recovering)
    }

    // How many work steps of its recovery the unit with this number has behind it.
    pub fn steps_done(&self, index: usize) -> u32
        ensures { result ≡ steps_done_of (slice_index_or self.now index new_unit).standing }
    {
        self.rows.get(index).map_or(0, Row::steps_done)
    }

    // One work step of the unit with this number, which has so many blocks; the other units stay.
    pub fn advance(&mut self, index: usize, blocks: u32)
        ensures { self.new ≡ alter index (λ u. advanced (nat_le blocks (16 * (steps_done_of u.standing + 1))) u.standing u) self.old }
    {
        // By index, as in `put_to`.
        if index < self.rows.len() {
            self.rows[index].advance(blocks);
        }
    }
}
