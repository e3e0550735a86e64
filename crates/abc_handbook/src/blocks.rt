//! The examples of a page. Each is a block that opens with ```abc and has what is typed, and the next block, which opens with ```
//! alone and has what is answered. All other blocks are left out.

use std::alloc::{AllocError, Global};
use std::mem;

/// What opens and closes a block of a page.
const FENCE: &str = "```";

/// What opens a block that is typed. Options of the program may follow.
const TYPED: &str = "```abc";

/// An example.
#[derive(Drop)]
pub(crate) struct Example {
    /// The line of the page where it opens.
    pub(crate) line: u64,
    /// The options that the program is given beside its store.
    pub(crate) options: String,
    pub(crate) typed: String,
    pub(crate) answer: String,
}

impl Example {
    pub(crate) fn new(alloc: Global) -> Example {
        Example {
            line: 0,
            options: String::new(alloc),
            typed: String::new(alloc),
            answer: String::new(alloc),
        }
    }
}

/// What the next line of a page belongs to.
#[derive(Clone, Copy, PartialEq, Eq, Debug)]
enum Place {
    /// The page's text.
    Text,
    /// A block that is no example.
    Other,
    Typed,
    /// The text between what is typed and its answer.
    Between,
    Answer,
}

/// Reads a page line by line.
#[derive(Drop)]
pub(crate) struct Page {
    alloc: Global,
    place: Place,
    line: u64,
    example: Example,
}

/// Adds a line to a text of lines.
fn add_line(text: &mut String, line: &str) -> Result<(), AllocError> {
    text.push_str(line)?;
    text.push('\n')
}

impl Page {
    pub(crate) fn new(alloc: Global) -> Page {
        Page {
            alloc,
            place: Place::Text,
            line: 0,
            example: Example::new(alloc),
        }
    }

    /// Whether something was typed whose answer has not come.
    pub(crate) fn is_open(&self) -> bool {
        self.place != Place::Text && self.place != Place::Other
    }

    /// Takes the next line. The answer is the example that ends with it.
    pub(crate) fn take_line(&mut self, line: &str) -> Result<Option<Example>, AllocError> {
        self.line = self.line.saturating_add(1);
        match self.place {
            Place::Text => self.open(line)?,
            Place::Between => self.open_answer(line),
            Place::Other if line == FENCE => self.place = Place::Text,
            Place::Typed if line == FENCE => self.place = Place::Between,
            Place::Answer if line == FENCE => return Ok(Some(self.close())),
            Place::Other => {}
            Place::Typed => add_line(&mut self.example.typed, line)?,
            Place::Answer => add_line(&mut self.example.answer, line)?,
        }
        Ok(None)
    }

    fn open(&mut self, line: &str) -> Result<(), AllocError> {
        if let Some(options) = line.strip_prefix(TYPED) {
            self.example.line = self.line;
            self.example.options.push_str(options)?;
            self.place = Place::Typed;
        } else if line.starts_with(FENCE) {
            self.place = Place::Other;
        }
        Ok(())
    }

    fn open_answer(&mut self, line: &str) {
        if line == FENCE {
            self.place = Place::Answer;
        }
    }

    fn close(&mut self) -> Example {
        self.place = Place::Text;
        mem::replace(&mut self.example, Example::new(self.alloc))
    }
}
