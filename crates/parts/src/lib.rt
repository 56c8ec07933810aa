// The data of a Put to a unit: its parts, cut by their lengths, checked, and taken apart by patterns.
// A function of the bytes alone; what they do to a unit is not known here.
#![tactic(auto)]

pub mod put;
pub mod reading;
