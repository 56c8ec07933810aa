// Examples of the rules, run as tests.
// Each expected answer is what the rules give, by their numbers and bytes.
#![tactic(auto)]

#[cfg(test)]
mod fixed_lists;
#[cfg(test)]
mod layouts;
#[cfg(test)]
mod mediums;
#[cfg(test)]
mod programs;
#[cfg(test)]
mod put_parts;
#[cfg(test)]
mod transfers;
