//! The reader: an input cut into lines and items, while it comes.
#![tactic(auto)]

mod laws;
mod line;
mod line_reader;
mod reader;
mod reader_lines;
mod scan;

pub use laws::items_are_steady;
pub use reader::Reader;
pub use reader_lines::ReaderLines;
