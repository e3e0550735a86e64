//! The parser: what an item says, its tree or its fault, and the laws of trees and faults.
#![tactic(auto)]

mod building;
mod cutting;
mod fault;
mod items;
mod laws;
mod making;
mod parts;
mod roots;
mod shares;

pub use fault::ItemFault;
pub use items::parse_item;
pub use laws::{
    computed_item, faultless, numbered_items, one_item, regular_items, regular_templates,
    unit_alone,
};
pub use parts::{Part, Root};
