// Parts of a Put, in the bytes of its data.
// Data whose parts fail the check are malformed; the search tells which part holds a byte.
ghost use Rattle.model.specs.Parts.{part_start, part_length};

use crate::Extent;
use model::part::Part;

impl Extent for Part {
    ghost from = { part_start };

    ghost size = { part_length };

    fn start(&self) -> u32 {
        self.start
    }

    fn length(&self) -> u32 {
        self.length
    }
}
