// The layout of a stick: idVendor, product base and bcdDevice, how many units each interface has, and where each unit lies on the medium.
// Layout bytes are inspected by every rule; fitting after that is total.
#![tactic(auto)]

mod places;
pub mod read;
pub mod table;
