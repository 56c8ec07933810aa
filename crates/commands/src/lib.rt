// The commands of mass storage on one unit, over any medium.
// A command is weighed whole before any data move; at a bad block the blocks before it have moved, and the rest have not.
#![tactic(auto)]

mod blocks;
mod disk;
pub mod ended;
mod endings;
pub mod perform;
mod span;
mod stops;
