// Answers to control transfers, before they go into a buffer.
// Lock Data are the longest of them.
#![tactic(auto)]

pub mod answer;
pub mod answering;
pub mod lock_data;
