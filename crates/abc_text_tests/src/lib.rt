//! Tests alone, of lines and tokens, the tree, types and words: what no clause says, and that ample memory is enough. A module for each crate.
#![tactic(auto)]

#[cfg(test)]
mod groups;
#[cfg(test)]
mod layout;
#[cfg(test)]
mod make;
#[cfg(test)]
mod meaning;
#[cfg(test)]
mod tokens;
#[cfg(test)]
mod tree;
#[cfg(test)]
mod unify;
#[cfg(test)]
mod words;
