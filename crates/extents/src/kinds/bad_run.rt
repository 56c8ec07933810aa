// Runs of bad blocks.
// Inspection of a medium checks them, and a block is bad where the search finds one that holds it.
ghost use Rattle.model.specs.Blocks.{run_start, run_count};

use crate::Extent;
use model::layout::BadRun;

impl Extent for BadRun {
    ghost from = { run_start };

    ghost size = { run_count };

    fn start(&self) -> u32 {
        self.start
    }

    fn length(&self) -> u32 {
        self.count
    }
}
