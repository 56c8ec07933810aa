// The stick: fitted without power, running with it, and the calls that reach it.
// Transfers are calls of a running stick only, so an unpowered one cannot be handed any.
#![tactic(auto)]

pub mod completion;
pub mod stick;
