// The turning medium: a written block moves to the spare page, and the page that it gives up is the new spare.
// It has one page more than blocks and starts with block b on page b; bad marks belong to blocks, so a bad block never moves.
mod calls;
mod fitting;
mod pages;

ghost use Rattle.std.specs.Prelude.{◌≡◌, ◌≤◌, length};
ghost use Rattle.medium.specs.PageMap.{Within, Distinct, Spared};

use crate::MOST_BLOCKS;
use crate::store::Store;

// The page map is no type of its own: all facts but `full` speak of the number of blocks, which it would keep a second time.
// The pages stand in an array of a fixed size: fitting allocates nothing, and cannot fail.
#[derive(Drop)]
pub struct Turning {
    store: Store<1>,
    pages: [u16; MOST_BLOCKS],
    spare: u16,
    ghost full: { length pages ≡ 1024 },
    ghost beside: { spare ≤ store.count },
    ghost within: { Within pages store.count },
    ghost distinct: { Distinct pages store.count },
    ghost spared: { Spared pages spare store.count },
}
