// Calls that reach all rows, or one by its number.
// Past the table there is no unit.
ghost use Rattle.std.specs.Prelude.{◌≡◌, Bool, map, replicate, if◌then◌else◌, nat_lt, slice_index_or, slice_range};
ghost use Rattle.std.specs.Fn.{FnReturnsAt};
ghost use Rattle.parts.specs.Carries.{put_of};
ghost use Rattle.model.specs.Control.{alter};
ghost use Rattle.model.specs.Presence.{presented};
ghost use Rattle.model.specs.Puts.{turned};
ghost use Rattle.model.specs.Refusals.{number_of, refusal_number};
ghost use Rattle.model.specs.declared.refusal.Refusal.TheVariants.{Absent};
ghost use Rattle.model.specs.Units.{Standing, new_unit, powered, any_standing, any_phrase, any_locked};
ghost use Rattle.units.specs.Records.{record_of};
ghost use Rattle.units.specs.declared.row.Row.{Row};

use crate::row::Row;
use crate::rows::Rows;
use model::refusal::Refusal;
use parts::put::UnitPut;
use std::array;
use std::ops::Range;

impl Rows {
    // Sixteen new units.
    pub fn new() -> Rows
        ensures { result ≡ replicate 16 new_unit }
    {
        Rows {
            rows: array::from_fn(|_| Row::new()),
        }
    }

    // Power-up of every unit. A loop of its own, as `present` has: one over a closure would be longer than both.
    pub fn power_up(&mut self)
        ensures { self.new ≡ map powered self.old }
    {
        for row in &mut self.rows {
            row.power_up();
        }
    }

    // An interface presents its target: of every unit the accepted flag and the sense are cleared.
    pub fn present(&mut self)
        ensures { self.new ≡ map presented self.old }
    {
        for shown in &mut self.rows {
            shown.present();
        }
    }

    // Whether the test holds of one of these units: a test that tells, of each row, something of how its unit stands.
    fn is_any<F: Fn(&Row) -> bool>(&self, units: Range<usize>, test: F) -> bool
        requires { F.IsAlwaysCallable test }
        ensures { (told : Standing → Bool) → ((r : Row) (b : Bool) → FnReturnsAt F.Fn test r b → b ≡ told (record_of r).standing) → result ≡ any_standing told (slice_range self.now units.start units.end) }
    {
        self.rows.iter().take(units.end).skip(units.start).any(test)
    }

    // Whether one of these units holds a passphrase.
    pub fn is_any_personal(&self, units: Range<usize>) -> bool
        ensures { result ≡ any_phrase (slice_range self.now units.start units.end) }
    {
        self.is_any(units, Row::is_personal)
    }

    // Whether one of them is Locked.
    pub fn is_any_locked(&self, units: Range<usize>) -> bool
        ensures { result ≡ any_locked (slice_range self.now units.start units.end) }
    {
        self.is_any(units, Row::is_locked)
    }

    // A Put to the unit with this number; the other rows stay.
    pub fn put_to(
        &mut self,
        index: usize,
        put: UnitPut<'_>,
        negotiable: bool,
    ) -> Result<(), Refusal>
        ensures code { number_of result ≡ (if nat_lt index 16 then (turned negotiable (put_of put.entry) (slice_index_or self.old index new_unit)).code else refusal_number Absent) }
        ensures after { self.new ≡ alter index (λ u. (turned negotiable (put_of put.entry) u).after) self.old }
    {
        // By index: of a row that a slice's get_mut lent, a proof knows nothing afterwards. One function over a closure, as interfaces have,
        // would have to ask of the closure that it keeps a row sound.
        if index < self.rows.len() {
            self.rows[index].put(put, negotiable)
        } else {
            Err(Refusal::Absent)
        }
    }
}
