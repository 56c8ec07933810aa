// What the programs do alike at the edge: they serve lines, read and inspect the stick of a command line, and tell what is wrong on standard error.
// What a line or an option means stands in the libraries below.
#![tactic(auto)]

pub mod fits;
pub mod script;
pub mod serving;
pub mod telling;
