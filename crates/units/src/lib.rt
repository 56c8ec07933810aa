// The records of a stick's units: sixteen plain rows under one invariant.
// What a row means is the model's record of a unit; each call says what it makes of that.
#![tactic(auto)]

mod compare;
mod puts;
mod recovery;
pub mod row;
pub mod rows;
mod sense;
pub mod stored;
mod table;
mod tell;
