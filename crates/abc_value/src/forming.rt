//! The shapes of values: what is kept beside the parts of lists and tables, and the shapes of the fields of compounds.
ghost use Rattle.std.specs.Prelude.{◌≡◌, IfOk};
ghost use Rattle.std.specs.Option.{option_map};
ghost use Rattle.abc_value.specs.Tree.{trees};
ghost use Rattle.abc_value.specs.Forms.{forms, form_of, forms_of};

use crate::value::Node;
use crate::{Shape, Value};
use abc_chunks::Chunks;
use abc_num::OutOfMemory;
use std::alloc::Global;

impl Shape {
    /// The shape of the types that a value has. None where it has none, as a list of a number and a text. No list
    /// and no table is gone through.
    #[cycle(form)]
    pub fn of(alloc: Global, v: &Value) -> Result<Option<Shape>, OutOfMemory>
        ensures { IfOk result (λ o. o ≡ form_of v.now) }
    {
        match &v.node {
            Node::Number(_) => Ok(Some(Shape::number())),
            Node::Text(_) => Ok(Some(Shape::text())),
            Node::Compound(fields) => match shapes_of(alloc, fields)? {
                Some(shapes) => Ok(Some(Shape::compound(shapes))),
                None => Ok(None),
            },
            Node::List(elements) => elements.shape(),
            Node::Table(entries) => entries.shape(),
        }
    }
}

/// The shapes of these values, where each has one.
#[cycle(form)]
fn shapes_of(alloc: Global, parts: &Chunks<Value>) -> Result<Option<Vec<Shape>>, OutOfMemory>
    ensures { IfOk result (λ o. option_map (λ v. forms v.items) o ≡ forms_of (trees parts.now)) }
{
    let mut shapes = Vec::new(alloc);
    for i in 0..parts.len() {
        let Some(shape) = Shape::of(alloc, &parts[i])? else {
            return Ok(None);
        };
        shapes.push(shape)?;
    }
    Ok(Some(shapes))
}
