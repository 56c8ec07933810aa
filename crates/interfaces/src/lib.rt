// The interfaces of a running stick, and the descriptors that a host reads of them.
// Each descriptor is the definition's bytes, made of constant pieces.
#![tactic(auto)]

pub mod descriptor;
mod presence;
pub mod table;
