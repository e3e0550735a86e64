//! Types without variables.
ghost use Rattle.std.specs.Prelude.{◌≡◌, IfOk};

use crate::{Boxed, Items, OutOfMemory};
use std::alloc::Global;

/// A type. A value has one, several where it is or holds `{}`, or none, as a list of a number and a text.
#[derive(Debug, Drop)]
pub enum Ground {
    Number,
    Text,
    /// Of two fields or more.
    Compound(Grounds),
    List(Boxed<Ground>),
    /// Of keys and associates.
    Table(Boxed<Ground>, Boxed<Ground>),
}

/// The types of the fields of a compound, in their order.
pub type Grounds = Items<Ground>;

impl Ground {
    /// An equal type.
    pub fn copy(&self, alloc: Global) -> Result<Ground, OutOfMemory>
        ensures { IfOk result (λ copy. copy ≡ self.now) }
    {
        Ok(match self {
            Ground::Number => Ground::Number,
            Ground::Text => Ground::Text,
            Ground::Compound(fields) => {
                let mut copies = Vec::new(alloc);
                for field in fields.as_slice() {
                    copies.push(field.copy(alloc)?)?;
                }
                Ground::Compound(Items::from_vec(copies))
            }
            Ground::List(element) => Ground::List(Boxed::new(alloc, element.get().copy(alloc)?)?),
            Ground::Table(key, associate) => Ground::Table(
                Boxed::new(alloc, key.get().copy(alloc)?)?,
                Boxed::new(alloc, associate.get().copy(alloc)?)?,
            ),
        })
    }
}
