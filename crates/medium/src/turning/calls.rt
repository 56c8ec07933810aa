// The calls of the turning medium.
// A write never touches a page that holds a block, so the block's old bytes stand until the next write.
ghost use Rattle.std.specs.Prelude.{◌≡◌, length, is_ok, if◌then◌else◌, slice_index};
ghost use Rattle.model.specs.Blocks.{answer, written};
ghost use Rattle.medium.specs.Turning.{meaning_of, laid, turned};
ghost use Rattle.model.proofs.Mapped.{length_mapped, whole_mapped};
ghost use Rattle.std.proofs.Common.{arith};

use crate::Medium;
use crate::turning::Turning;
use model::refusal::Fault;
use std::mem;

impl Medium for Turning {
    ghost meaning = { meaning_of };

    ghost few = { λ s. rw length_mapped s.store.few };

    ghost whole = { λ s.
        whole_mapped s.store.memory.items s.store.runs.items (λ b. slice_index s.pages b) s.store.count
        (λ b h. let p = s.within b h in let r = s.store.room (omega arith) in let l = s.store.memory.ok.0 in omega arith) };

    fn blocks(&self) -> u32 {
        self.store.count
    }

    fn read(&self, block: u32, buffer: &mut [u8]) -> Result<(), Fault> {
        self.store.admit(block, buffer.len())?;
        let page = self.pages[block as usize];
        buffer.copy_from_slice(self.store.page(u32::from(page)));
        Ok(())
    }

    // Besides what every medium promises: an accepted write turns the pages, and a refused one leaves them.
    fn write(&mut self, block: u32, bytes: &[u8]) -> Result<(), Fault>
        ensures answer { result ≡ answer (meaning_of self.old) block (length bytes.now) }
        ensures after { meaning_of self.new ≡ written (meaning_of self.old) block bytes.now }
        ensures turns { laid self.new ≡ (if is_ok result then turned (laid self.old) block bytes.now else laid self.old) }
    {
        self.store.admit(block, bytes.len())?;
        self.store.set_page(u32::from(self.spare), bytes);
        mem::swap(&mut self.spare, &mut self.pages[block as usize]);
        Ok(())
    }
}
