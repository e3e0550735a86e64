//! The outline of an item: the tokens and the place of each line, and the own names, before it is known what the lines say.
#![tactic(auto)]

mod around;
mod edges;
mod gathering;
mod kinds;
mod laws;
mod naming;
mod outlining;
mod own;
mod parts;
mod refining;
mod rows;
mod words;

pub use around::Around;
pub use edges::{Edges, Place, Role, Section, Setting, Standing};
pub use kinds::{commands_of, name_kinds};
pub use laws::edges_by_tokens;
pub use naming::{LineNames, Verb, line_names};
pub use outlining::{Outline, setting_of};
pub use own::{item_names, own_names, used_names};
pub use refining::{Refined, refinements};
pub use rows::{Row, row_of, rows_of};
