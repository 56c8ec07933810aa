// What a lockable stick is: the definitions that every contract cites, and the enums that are answers.
// It knows of no other crate; what a reader has to believe stands in its specs/.
#![tactic(auto)]

pub mod command;
pub mod ids;
pub mod layout;
pub mod limits;
pub mod lock;
pub mod part;
pub mod refusal;
pub mod request;
pub mod sense;
