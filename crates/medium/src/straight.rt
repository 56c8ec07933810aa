// The straight medium: block b lies at byte 512 × b of its memory, and stays there.
// Fitted against the rules it has no blocks, and its memory is left as it was.
mod calls;
mod fitting;

use crate::store::Store;

#[derive(Drop)]
pub struct Straight {
    store: Store<0>,
}
