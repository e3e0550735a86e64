//! Principal signatures: which signatures a unit may have, kept as data, and copied for each call of the unit.
#![tactic(auto)]

mod calling;
mod fitting;
mod fresh;
mod group;
mod instances;
mod known;
mod member;
mod naming;
mod principal;
mod reading;

pub use calling::call_signatures;
pub use group::group_principals;
pub use known::Principals;
pub use member::Member;
pub use naming::target_var;
pub use principal::Principal;
