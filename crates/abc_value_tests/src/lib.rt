//! Tests alone, of numbers, values, targets, operations and displays: what no clause says, and that ample memory is enough. A module for each crate.
#![tactic(auto)]

#[cfg(test)]
mod chunks;
#[cfg(test)]
mod frames;
#[cfg(test)]
mod num;
#[cfg(test)]
mod predef;
#[cfg(test)]
mod print;
