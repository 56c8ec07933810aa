// The laws of reads and writes, over all blocks that a medium can mean.
// Every medium has them, since its calls are tied to these definitions by its contract.
ghost use Rattle.medium.specs.Laws.{MediumLaws};

// What is written is read back, nothing else changes, and what is refused changes nothing.
pub fn laws_hold()
    ensures { MediumLaws }
{}
