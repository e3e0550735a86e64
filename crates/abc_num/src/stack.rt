//! The stack of a reading: clauses see its entries, the newest first.
ghost use Rattle.std.specs.Prelude.{◌≡◌, [], ◌∷◌, OnOk, OnErr, MatchOption};

use crate::OutOfMemory;
use std::alloc::Global;
use std::marker::Model;

/// What waits, which clauses see as a list, the newest first.
#[derive(Debug, Drop)]
pub struct Stack<T> {
    entries: Vec<T>,
}

impl<T> Model for Stack<T> {
    ghost use Rattle.std.specs.Prelude.{List, reverse};
    ghost use Rattle.std.specs.Coded.{coded_list};

    ghost Value = { List T };

    ghost coded = { coded_list T.code };

    ghost view = { λ it. reverse it.entries.items };
}

impl<T> Stack<T> {
    pub fn new(alloc: Global) -> Stack<T>
        ensures { result ≡ [] }
    {
        Stack {
            entries: Vec::new(alloc),
        }
    }

    /// Takes the newest entry, if there is one.
    pub fn pop(&mut self) -> Option<T>
        ensures { MatchOption result ((self.old ≡ []) × (self.new ≡ [])) (λ entry. self.old ≡ entry ∷ self.new) }
    {
        self.entries.pop()
    }
}

impl<T: Drop> Stack<T> {
    /// Puts `entry` on top. After OutOfMemory the stack is as before.
    pub fn push(&mut self, entry: T) -> Result<(), OutOfMemory>
        ensures ok { OnOk result (self.new ≡ entry ∷ self.old) }
        ensures err { OnErr result (self.new ≡ self.old) }
    {
        self.entries.push(entry)?;
        Ok(())
    }
}
