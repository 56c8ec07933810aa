// A medium: up to 1,024 blocks of 512 bytes, each good or bad, known to the rest only by what it means.
// Here are the calls that every medium has, their laws, and what the makes of medium share.
#![tactic(auto)]

mod admission;
mod bad_runs;
pub mod laws;
mod rules;
mod store;
pub mod straight;
pub mod turning;

ghost use Rattle.std.specs.Prelude.{◌≡◌, ℕ, ◌≤◌, List, length, if◌then◌else◌, Ok, Err};
ghost use Rattle.std.specs.List.{AllByRecursion};
ghost use Rattle.model.specs.Blocks.{Block, Whole, answer, filled, written, medium_rules, fitted_blocks};
ghost use Rattle.model.specs.declared.refusal.Refusal.TheVariants.{Medium as BadMedium};

use model::layout::BadRun;
use model::refusal::{Fault, Refusal};

// A page of memory holds a block.
pub use model::limits::BLOCK_BYTES as PAGE;

// The blocks that a medium may have.
pub const MOST_BLOCKS: usize = 1024;

// The blocks of a stick, wherever their bytes lie.
pub trait Medium {
    ghost meaning: { Self → List Block };

    // How many blocks there are.
    fn blocks(&self) -> u32
        ensures { result ≡ length (meaning self.now) };

    // Fills a buffer of 512 bytes with a good block; a refused read leaves the buffer.
    fn read(&self, block: u32, buffer: &mut [u8]) -> Result<(), Fault>
        ensures answer { result ≡ answer (meaning self.now) block (length buffer.old) }
        ensures buffer { buffer.new ≡ filled (meaning self.now) block buffer.old };

    // Sets a good block to 512 bytes, and changes nothing else; a refused write changes nothing.
    fn write(&mut self, block: u32, bytes: &[u8]) -> Result<(), Fault>
        ensures answer { result ≡ answer (meaning self.old) block (length bytes.now) }
        ensures after { meaning self.new ≡ written (meaning self.old) block bytes.now };

    ghost few: { (s : Self) → length (meaning s) ≤ 1024 };

    ghost whole: { (s : Self) → AllByRecursion Whole (meaning s) };
}

// A make of medium, which is fitted to memory in pages: it needs so many pages more than blocks.
pub trait Fitted: Medium {
    ghost SPARE: { ℕ };

    const SPARE: u8;

    // Whether a medium of this make can be fitted to the memory and the bad runs.
    fn inspect(memory: &[u8], runs: &[BadRun]) -> Result<(), Refusal>
        ensures { result ≡ (if medium_rules SPARE (length memory.now) runs.now then Ok tt else Err BadMedium) }
    {
        rules::inspect(Self::SPARE, memory.len(), runs)?;
        Ok(())
    }

    // Fits a medium to its memory, with no blocks where a rule is broken.
    fn fit(memory: Vec<u8>, runs: Vec<BadRun>) -> Self
        ensures meaning { Self.meaning result ≡ fitted_blocks SPARE memory.items runs.items };
}
