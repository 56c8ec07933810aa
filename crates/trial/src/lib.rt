// Events as values: one performed on a running stick, a list of them run, and two sticks run side by side.
// Nothing here allocates; what came of an event is kept beside it.
#![tactic(auto)]

pub mod run;
pub mod side_by_side;
pub mod turn;
