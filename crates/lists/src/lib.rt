// Lists in fixed memory.
// Answers, layouts and the interfaces of a stick are made of them.
#![tactic(auto)]

pub mod list;
