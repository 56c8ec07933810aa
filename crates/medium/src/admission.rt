// Which calls a medium turns down, by its bad runs and its number of blocks.
// It does not matter where the blocks lie, so every make asks here first.
ghost use Rattle.std.specs.Prelude.{◌≡◌, ℕ, ◌<◌, List, OnOk};
ghost use Rattle.model.specs.Blocks.{answer, mapped_blocks};

use crate::PAGE;
use crate::bad_runs::is_bad;
use crate::store::Store;
use model::layout::BadRun;
use model::refusal::Fault;

// The answer to a call for a block with `length` bytes, wherever on whatever memory the blocks lie.
// It serves any runs and any number of blocks, and the method below a Store's own.
pub(crate) fn admit(runs: &[BadRun], count: u32, block: u32, length: usize) -> Result<(), Fault>
    ensures within { OnOk result ((block < count) × (length ≡ 512)) }
    ensures answer { (memory : List ℕ) (at : ℕ → ℕ) → result ≡ answer (mapped_blocks memory runs.now at count) block length }
{
    if block >= count || length != PAGE {
        return Err(Fault::Outside);
    }
    if is_bad(runs, block) {
        return Err(Fault::Bad);
    }
    Ok(())
}

impl<const SPARE: u8> Store<SPARE> {
    // The same over the runs and the number of blocks of this store.
    pub(crate) fn admit(&self, block: u32, length: usize) -> Result<(), Fault>
        ensures within { OnOk result ((block < self.now.count) × (length ≡ 512)) }
        ensures answer { (memory : List ℕ) (at : ℕ → ℕ) → result ≡ answer (mapped_blocks memory self.now.runs.items at self.now.count) block length }
    {
        admit(self.runs.as_slice(), self.count, block, length)
    }
}
