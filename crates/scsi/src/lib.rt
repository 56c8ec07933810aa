// Bytes to commands and back: what a command block wrapper asks for, and the bytes that answer it.
// Nothing here knows of a stick: how long a unit is, and whether it is open, is handed in.
#![tactic(auto)]

pub mod capacity;
pub mod checks;
pub mod inquiry;
pub mod sense;
pub mod status;
pub mod wrapper;
