// Places of units.
// Inspection of a layout checks them, those of all interfaces in one list; the search tells which unit holds a block.
ghost use Rattle.model.specs.Layouts.{place_start, place_count};

use crate::Extent;
use model::layout::Place;

impl Extent for Place {
    ghost from = { place_start };

    ghost size = { place_count };

    fn start(&self) -> u32 {
        self.start
    }

    fn length(&self) -> u32 {
        self.count
    }
}
