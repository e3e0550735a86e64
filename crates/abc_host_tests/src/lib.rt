//! Tests alone, of what stands over a host, and of records: what no clause says, and that ample memory is enough. A module for each crate.
#![tactic(auto)]

#[cfg(test)]
mod journal;
#[cfg(test)]
mod outside;
#[cfg(test)]
mod reader;
#[cfg(test)]
mod record;
#[cfg(test)]
mod turns;
