// What every make of medium is made of: memory in pages of a block each, the bad runs, and the number of blocks.
// A make adds only on which page a block lies.
ghost use Rattle.std.specs.Prelude.{◌≡◌, ◌+◌, ◌*◌, ◌<◌, ◌≤◌, length, vec_len};
ghost use Rattle.model.specs.Blocks.{page as page_of, blocks, fitted_blocks};
ghost use Rattle.medium.specs.Stored.{repaged};

use crate::{PAGE, rules};
use model::layout::BadRun;

// There are SPARE pages more than blocks. With no blocks nothing is reached, and the memory may be of any size.
#[derive(Drop)]
pub(crate) struct Store<const SPARE: u8> {
    pub(crate) memory: Vec<u8>,
    pub(crate) runs: Vec<BadRun>,
    pub(crate) count: u32,
    ghost few: { count ≤ 1024 },
    ghost room: { 0 < count → 512 * (count + SPARE) ≤ vec_len memory },
}

impl<const SPARE: u8> Store<SPARE> {
    // With no blocks where a rule is broken.
    pub(crate) fn fit(memory: Vec<u8>, runs: Vec<BadRun>) -> Store<SPARE>
        ensures blocks { blocks result.memory.items result.runs.items result.count ≡ fitted_blocks SPARE memory.items runs.items }
        ensures memory { result.memory.items ≡ memory.items }
    {
        let count = rules::inspect(SPARE, memory.len(), runs.as_slice()).unwrap_or(0);
        Store {
            memory,
            runs,
            count,
        }
    }

    // The bytes of a page: 512 of those that blocks lie on or that are to spare, and of others what there is of them in the memory.
    pub(crate) fn page(&self, page: u32) -> &[u8]
        ensures bytes { result.now ≡ page_of self.now.memory.items page }
        ensures length { 0 < self.now.count → page < self.now.count + SPARE → length result.now ≡ 512 }
    {
        let rest = self.memory.get(PAGE * page as usize..).unwrap_or(&[]);
        &rest[..PAGE.min(rest.len())]
    }

    // Sets a page to other bytes. One that is not wholly in the memory, and bytes that are not 512, change nothing.
    pub(crate) fn set_page(&mut self, page: u32, bytes: &[u8])
        ensures memory { self.new.memory.items ≡ repaged self.old.memory.items page bytes.now }
        ensures runs { self.new.runs ≡ self.old.runs }
        ensures count { self.new.count ≡ self.old.count }
    {
        let at = PAGE * page as usize;
        if bytes.len() == PAGE && at + PAGE <= self.memory.len() {
            self.memory[at..at + PAGE].copy_from_slice(bytes);
        }
    }
}
