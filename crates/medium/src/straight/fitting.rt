// Fitting a straight medium to its memory, which has no page to spare.
// Beside the store nothing is kept: the number of a block tells its page.
ghost use Rattle.std.specs.Prelude.{◌≡◌};
ghost use Rattle.model.specs.Blocks.{fitted_blocks};
ghost use Rattle.medium.specs.Straight.{meaning_of};

use crate::Fitted;
use crate::store::Store;
use crate::straight::Straight;
use model::layout::BadRun;

impl Fitted for Straight {
    ghost SPARE = { 0 };

    const SPARE: u8 = 0;

    // Besides what every make promises: the memory is left as it was.
    fn fit(memory: Vec<u8>, runs: Vec<BadRun>) -> Straight
        ensures meaning { meaning_of result ≡ fitted_blocks 0 memory.items runs.items }
        ensures memory { result.store.memory.items ≡ memory.items }
    {
        let store = Store::fit(memory, runs);
        Straight { store }
    }
}
