// The table of sixteen rows, with what holds of all of them as its invariant.
// Callers see it as the list of the units' records. In a file of its own, so that definitions may name it.
use crate::row::Row;
use model::limits::MOST_UNITS;
use std::marker::Model;

#[derive(Drop)]
pub struct Rows {
    pub(crate) rows: [Row; MOST_UNITS],
}

impl Model for Rows {
    ghost use Rattle.std.specs.Prelude.{◌≡◌, List, map, length, true};
    ghost use Rattle.model.specs.Units.{UnitRecord};
    ghost use Rattle.units.specs.Records.{record_of, sound_rows};

    ghost Value = { List UnitRecord };

    ghost view = { λ t. map record_of t.rows };

    ghost invariant = { λ t. (length t.rows ≡ 16) × (sound_rows t.rows ≡ true) };
}
