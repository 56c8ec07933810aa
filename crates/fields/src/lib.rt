// The fields of a line of text: words between blanks, and the bytes that hexadecimal digits say.
// A mistake has a name of its own, so that nothing about a line is guessed.
#![tactic(auto)]

pub mod digits;
pub mod error;
pub mod law;
pub mod words;
