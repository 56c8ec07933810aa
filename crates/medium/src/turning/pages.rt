// The page map that a turning medium starts with.
// Built in a function of its own, so that a thousand places stay out of every other proof.
ghost use Rattle.std.specs.Prelude.{◌≡◌, ℕ, ◌<◌, length, slice_index};

use crate::MOST_BLOCKS;
use std::array;

// Block b on page b.
pub(crate) fn identity() -> [u16; MOST_BLOCKS]
    ensures full { length result ≡ 1024 }
    ensures places { (b : ℕ) → b < 1024 → slice_index result b ≡ b }
{
    array::from_fn(|page| page as u16)
}
