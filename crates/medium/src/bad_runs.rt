// Which blocks are bad: those that one of the medium's bad runs holds.
// The runs are sorted and few, so the one search over extents serves.
ghost use Rattle.std.specs.Prelude.{◌≡◌};
ghost use Rattle.model.specs.Blocks.{is_bad};

use extents::find;
use model::layout::BadRun;

// Whether a bad run holds the block.
pub(crate) fn is_bad(runs: &[BadRun], block: u32) -> bool
    ensures { result ≡ is_bad runs.now block }
{
    find(runs, block).is_some()
}
