// The values of the bench's options: decimal numbers and bad runs, and what can be wrong with a command line.
// A value that is not of its form is an error, never a guess.
#![tactic(auto)]

pub mod decimal;
pub mod error;
pub mod runs;
