// How an event is answered on the bench: the buffer that it is handed before, and the record line that is written after it.
// A reply is taken as it stands; no stick is looked at.
#![tactic(auto)]

pub mod buffer;
pub mod line;
pub mod turn;
