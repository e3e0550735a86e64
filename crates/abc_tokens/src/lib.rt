//! The tokens of a line, and its shape: what of it matters for the lines of an item.
#![tactic(auto)]

mod bytes;
mod converting;
mod kinds;
mod laws;
mod scan;
mod shaping;
mod texts;
mod words;

pub use converting::conversion_end;
pub use kinds::{First, Shape, Token, TokenFault, TokenKind};
pub use laws::{
    computed_tokens, computed_values, computed_words, conversion_tokens, longest_text, one_reading,
    one_shape, placed_tokens, shape_by_tokens, spelled_tokens,
};
pub use scan::tokens;
pub use shaping::{is_first, is_reserved, shape};
