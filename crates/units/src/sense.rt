// What bulk commands see and leave of a unit: whether it is open to them, and its sense.
// Past the table there are only new units, and nothing is kept of them.
ghost use Rattle.std.specs.Prelude.{◌≡◌, slice_index_or};
ghost use Rattle.model.specs.Bulk.{with_sense};
ghost use Rattle.model.specs.Commands.{barrier as closed_by};
ghost use Rattle.model.specs.Control.{alter};
ghost use Rattle.model.specs.Units.{new_unit};
ghost use Rattle.units.specs.Records.{record_of, sound_row};

use crate::row::Row;
use crate::rows::Rows;
use model::lock::LockState;
use model::sense::Sense;

impl Row {
    fn barrier(&self) -> Option<Sense>
        ensures { result ≡ closed_by (record_of self.now).standing }
    {
        match self.state {
            LockState::Impersonal | LockState::Unlocked => None,
            LockState::Locked => Some(Sense::Locked),
            LockState::Recovering { .. } => Some(Sense::Recovering),
        }
    }

    fn set_sense(&mut self, sense: Sense)
        ensures record { record_of self.new ≡ with_sense sense (record_of self.old) }
        ensures sound { sound_row self.new ≡ sound_row self.old }
    {
        self.sense = sense;
    }
}

impl Rows {
    // Why the unit with this number is closed to commands that need it open, if it is.
    pub fn barrier(&self, index: usize) -> Option<Sense>
        ensures { result ≡ closed_by (slice_index_or self.now index new_unit).standing }
    {
        self.rows.get(index).and_then(Row::barrier)
    }

    // Why the last command for the unit failed.
    pub fn sense(&self, index: usize) -> Sense
        ensures { result ≡ (slice_index_or self.now index new_unit).sense }
    {
        self.rows.get(index).map_or(Sense::None, |row| row.sense)
    }

    // Keeps a sense for the unit; the rest of its record and the other units stay.
    pub fn set_sense(&mut self, index: usize, sense: Sense)
        ensures { self.new ≡ alter index (with_sense sense) self.old }
    {
        // By index, as in `put_to`.
        if index < self.rows.len() {
            self.rows[index].set_sense(sense);
        }
    }
}
