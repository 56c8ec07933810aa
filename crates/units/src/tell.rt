// What a host is told of a unit.
// Past the table there are only new units.
ghost use Rattle.std.specs.Prelude.{◌≡◌, true, slice_index_or};
ghost use Rattle.model.specs.LockData.{lock_data};
ghost use Rattle.model.specs.Units.{new_unit};
ghost use Rattle.units.specs.Records.{record_of, sound_row};

use crate::row::Row;
use crate::rows::Rows;
use answers::answer::Answer;
use answers::lock_data::{LockFacts, lock_data};
use model::request::UnitAddress;

impl Row {
    // What Lock Data tell of the unit besides its hint.
    fn facts(&self, blocks: u32, address: UnitAddress) -> LockFacts
        ensures { result ≡ record { blocks = blocks; address = address; state = self.now.state; accepted = self.now.accepted } }
    {
        LockFacts {
            blocks,
            address,
            state: self.state,
            accepted: self.accepted,
        }
    }

    fn lock_data(&self, blocks: u32, address: UnitAddress) -> Answer
        requires { sound_row self.now ≡ true }
        ensures { result ≡ lock_data blocks address.interface address.unit (record_of self.now) }
    {
        lock_data(self.facts(blocks, address), self.hint.as_slice())
    }
}

impl Rows {
    // The Lock Data of the unit with this number, which has so many blocks.
    pub fn lock_data(&self, index: usize, blocks: u32, address: UnitAddress) -> Answer
        ensures { result ≡ lock_data blocks address.interface address.unit (slice_index_or self.now index new_unit) }
    {
        let new = Row::new();
        self.rows
            .get(index)
            .unwrap_or(&new)
            .lock_data(blocks, address)
    }
}
