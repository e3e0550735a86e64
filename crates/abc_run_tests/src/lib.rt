//! Tests alone, of whole runs over a host in memory: each call of the host failing in turn, forged images, rows at bounds, and inputs too long for a table.
#![tactic(auto)]

#[cfg(test)]
mod bounds;
#[cfg(test)]
mod failing;
#[cfg(test)]
mod forged;
#[cfg(test)]
mod long;
#[cfg(test)]
mod runs;
