// The script of a bench: lines that say which event comes next.
// Nothing here knows of a stick, or of how an event is answered.
#![tactic(auto)]

pub mod law;
pub mod line;
