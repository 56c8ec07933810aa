// The options of the bench's command line: which stick is fitted.
// Each is given once at most; what is not given is the bench's own.
#![tactic(auto)]

pub mod choice;
pub mod fitting;
pub mod read;
mod set;
