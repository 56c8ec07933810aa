// Laws above the model: what its definitions say in the subject's own words.
// Each is the contract of a function that computes nothing, so that no law stands unproved.
#![tactic(auto)]

pub mod bulk;
pub mod examples;
pub mod judgement;
pub mod table;
