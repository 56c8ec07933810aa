// Fitting a turning medium to its memory, which has one page to spare.
// Each block starts on the page of its number, and the page behind the last block is the spare one.
ghost use Rattle.std.specs.Prelude.{◌≡◌, ℕ, ◌<◌, slice_index};
ghost use Rattle.model.specs.Blocks.{fitted_blocks};
ghost use Rattle.medium.specs.Turning.{meaning_of};

use crate::Fitted;
use crate::store::Store;
use crate::turning::Turning;
use crate::turning::pages::identity;
use model::layout::BadRun;

impl Fitted for Turning {
    ghost SPARE = { 1 };

    const SPARE: u8 = 1;

    // Besides what every make promises: the memory is left as it was, and each block lies on the page of its number.
    fn fit(memory: Vec<u8>, runs: Vec<BadRun>) -> Turning
        ensures meaning { meaning_of result ≡ fitted_blocks 1 memory.items runs.items }
        ensures memory { result.store.memory.items ≡ memory.items }
        ensures pages { (b : ℕ) → b < result.store.count → slice_index result.pages b ≡ b }
    {
        let store = Store::fit(memory, runs);
        let spare = store.count as u16;
        Turning {
            store,
            pages: identity(),
            spare,
        }
    }
}
