// Bytes to meaning: what the setup bytes of a transfer and access data say, before any state is looked at.
// Nothing here knows of a stick, so reading a request cannot tell one stick from another.
#![tactic(auto)]

pub mod access;
pub mod setup;
