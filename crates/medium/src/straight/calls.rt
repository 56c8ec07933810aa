// The calls of the straight medium.
// What is turned down is the same for every make, so each call asks for admission first.
ghost use Rattle.std.specs.Prelude.{◌≡◌, length, is_ok, if◌then◌else◌};
ghost use Rattle.model.specs.Blocks.{answer, written};
ghost use Rattle.medium.specs.Stored.{with_page};
ghost use Rattle.medium.specs.Straight.{meaning_of};
ghost use Rattle.model.proofs.Mapped.{length_mapped, whole_mapped};
ghost use Rattle.std.proofs.Common.{arith};

use crate::Medium;
use crate::straight::Straight;
use model::refusal::Fault;

impl Medium for Straight {
    ghost meaning = { meaning_of };

    ghost few = { λ s. rw length_mapped s.store.few };

    ghost whole = { λ s. whole_mapped s.store.memory.items s.store.runs.items (λ b. b) s.store.count (λ b h. let r = s.store.room (omega arith) in let l = s.store.memory.ok.0 in omega arith) };

    fn blocks(&self) -> u32 {
        self.store.count
    }

    fn read(&self, block: u32, buffer: &mut [u8]) -> Result<(), Fault> {
        self.store.admit(block, buffer.len())?;
        buffer.copy_from_slice(self.store.page(block));
        Ok(())
    }

    // Besides what every medium promises: an accepted write sets the block's own page, and a refused one no byte at all.
    fn write(&mut self, block: u32, bytes: &[u8]) -> Result<(), Fault>
        ensures answer { result ≡ answer (meaning_of self.old) block (length bytes.now) }
        ensures after { meaning_of self.new ≡ written (meaning_of self.old) block bytes.now }
        ensures memory { self.new.store.memory.items ≡ (if is_ok result then with_page self.old.store.memory.items block bytes.now else self.old.store.memory.items) }
    {
        self.store.admit(block, bytes.len())?;
        self.store.set_page(block, bytes);
        Ok(())
    }
}
