// The kinds of element that have a start and a length.
// Bad runs and unit places lie in the blocks of a medium, parts in the bytes of a Put.
pub mod bad_run;
pub mod part;
pub mod place;
