// What memory and bad runs have to be for a medium to be fitted to them.
// The rules are the same for every make, but for how many pages it has to spare.
ghost use Rattle.std.specs.Prelude.{◌≡◌, ◌-◌, ◌/◌, if◌then◌else◌, Ok, Err};
ghost use Rattle.model.specs.Blocks.{medium_rules};
ghost use Rattle.model.specs.declared.refusal.Refusal.TheVariants.{Medium as BadMedium};

use crate::{MOST_BLOCKS, PAGE};
use extents::is_sound;
use model::layout::BadRun;
use model::refusal::Refusal;

const MOST_RUNS: usize = 8;

// The number of blocks that so many bytes make with `spare` pages more than blocks, or the refusal where a rule is broken.
pub(crate) fn inspect(spare: u8, bytes: usize, runs: &[BadRun]) -> Result<u32, Refusal>
    ensures { result ≡ (if medium_rules spare bytes runs.now then Ok (bytes / 512 - spare) else Err BadMedium) }
{
    let spare = usize::from(spare);
    let pages = bytes / PAGE;
    if bytes % PAGE != 0 || !(1 + spare..=MOST_BLOCKS + spare).contains(&pages) {
        return Err(Refusal::Medium);
    }
    // `as`, where Rust has no `From`: that the number fits is proved, and a `TryFrom` would add a branch that never runs.
    let blocks = (pages - spare) as u32;
    if runs.len() > MOST_RUNS || !is_sound(runs, blocks) {
        return Err(Refusal::Medium);
    }
    Ok(blocks)
}
