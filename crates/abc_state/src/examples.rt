//! The shape of the type of an example: a literal without `{}`.
ghost use Rattle.std.specs.Prelude.{◌≡◌, IfOk, map, option_map};
ghost use Rattle.abc_value.specs.Forms.{a_compound, a_list, a_table, both, forms, joined};
ghost use Rattle.abc_meaning.specs.Fits.{example_form, fields_in, forms_in};
ghost use Rattle.abc_state.specs.inner.Examples.{fill_example, piece_example, key_example, associate_example};

use abc_num::OutOfMemory;
use abc_tree::{Expr, Fill, Pair, Piece};
use abc_value::Shape;
use std::alloc::Global;

/// The shape of the type of an example; one that no type has has none.
#[cycle(example)]
pub(crate) fn example_shape(alloc: Global, example: &Expr) -> Result<Option<Shape>, OutOfMemory>
    ensures { IfOk result (λ o. o ≡ example_form example.now) }
{
    match example {
        Expr::Number(_) => Ok(Some(Shape::number())),
        Expr::Text(pieces) => {
            let shapes = of_pieces(alloc, pieces.as_slice())?;
            let shape = common(alloc, shapes)?;
            joined(alloc, Some(Shape::text()), shape)
        }
        Expr::Compound(fields) => {
            let shapes = of_fields(alloc, fields.as_slice())?;
            compound(alloc, shapes)
        }
        Expr::List(fills) => {
            let shapes = of_fills(alloc, fills.as_slice())?;
            list(alloc, common(alloc, shapes)?)
        }
        Expr::Table(pairs) => {
            let keys = of_keys(alloc, pairs.as_slice())?;
            let associates = of_associates(alloc, pairs.as_slice())?;
            table(alloc, common(alloc, keys)?, common(alloc, associates)?)
        }
        Expr::Apply1(_, x) => {
            let shape = example_shape(alloc, x.get())?;
            joined(alloc, Some(Shape::number()), shape)
        }
        Expr::Apply2(_, x, y) => {
            let left = example_shape(alloc, x.get())?;
            let right = example_shape(alloc, y.get())?;
            let both = joined(alloc, left, right)?;
            joined(alloc, Some(Shape::number()), both)
        }
        Expr::Name(_) | Expr::Empty | Expr::Select(_, _) | Expr::Call(_, _) => Ok(None),
    }
}

/// The shapes of examples, where they have one.
type Shapes = Vec<Option<Shape>>;

/// The shapes of the fields of a compound.
#[cycle(example)]
fn of_fields(alloc: Global, fields: &[Expr]) -> Result<Shapes, OutOfMemory>
    ensures { IfOk result (λ shapes. shapes.items ≡ map example_form fields.now) }
{
    let mut shapes = Vec::new(alloc);
    for field in fields {
        shapes.push(example_shape(alloc, field)?)?;
    }
    Ok(shapes)
}

/// The shapes of the pieces of a text; a conversion has none.
fn of_pieces(alloc: Global, pieces: &[Piece]) -> Result<Shapes, OutOfMemory>
    ensures { IfOk result (λ shapes. shapes.items ≡ map piece_example pieces.now) }
{
    let mut shapes = Vec::new(alloc);
    for piece in pieces {
        shapes.push(of_piece(piece))?;
    }
    Ok(shapes)
}

/// The shapes of the fillers of a list; a range has none.
#[cycle(example)]
fn of_fills(alloc: Global, fills: &[Fill]) -> Result<Shapes, OutOfMemory>
    ensures { IfOk result (λ shapes. shapes.items ≡ map fill_example fills.now) }
{
    let mut shapes = Vec::new(alloc);
    for fill in fills {
        shapes.push(of_fill(alloc, fill)?)?;
    }
    Ok(shapes)
}

/// The shapes of the keys of a table.
#[cycle(example)]
fn of_keys(alloc: Global, pairs: &[Pair]) -> Result<Shapes, OutOfMemory>
    ensures { IfOk result (λ shapes. shapes.items ≡ map key_example pairs.now) }
{
    let mut shapes = Vec::new(alloc);
    for pair in pairs {
        shapes.push(example_shape(alloc, &pair.key)?)?;
    }
    Ok(shapes)
}

/// The shapes of the associates of a table.
#[cycle(example)]
fn of_associates(alloc: Global, pairs: &[Pair]) -> Result<Shapes, OutOfMemory>
    ensures { IfOk result (λ shapes. shapes.items ≡ map associate_example pairs.now) }
{
    let mut shapes = Vec::new(alloc);
    for pair in pairs {
        shapes.push(example_shape(alloc, &pair.associate)?)?;
    }
    Ok(shapes)
}

/// The shape of a piece of a text.
fn of_piece(piece: &Piece) -> Option<Shape>
    ensures { result ≡ piece_example piece.now }
{
    match piece {
        Piece::Chars(_) => Some(Shape::text()),
        Piece::Conversion(_) => None,
    }
}

/// The shape of a filler.
#[cycle(example)]
fn of_fill(alloc: Global, fill: &Fill) -> Result<Option<Shape>, OutOfMemory>
    ensures { IfOk result (λ o. o ≡ fill_example fill.now) }
{
    match fill {
        Fill::One(example) => example_shape(alloc, example),
        Fill::Range(_, _) => Ok(None),
    }
}

/// The shape of the types that are of all these shapes.
fn common(alloc: Global, shapes: Shapes) -> Result<Option<Shape>, OutOfMemory>
    ensures { IfOk result (λ o. o ≡ forms_in shapes.items) }
{
    let mut rest = shapes;
    let mut shape = Some(Shape::anything());
    'shapes: while let Some(last) = rest.pop() {
        shape = joined(alloc, last, shape)?;
    }
    Ok(shape)
}

/// The shape of compounds of these fields, where each has one.
fn compound(alloc: Global, shapes: Shapes) -> Result<Option<Shape>, OutOfMemory>
    ensures { IfOk result (λ o. o ≡ option_map (λ fields. a_compound (forms fields)) (fields_in shapes.items)) }
{
    let mut fields = Vec::new(alloc);
    for shape in shapes {
        let Some(shape) = shape else {
            return Ok(None);
        };
        fields.push(shape)?;
    }
    Ok(Some(Shape::compound(fields)))
}

/// The shape of lists of such elements.
fn list(alloc: Global, elements: Option<Shape>) -> Result<Option<Shape>, OutOfMemory>
    ensures { IfOk result (λ o. o ≡ option_map a_list elements) }
{
    match elements {
        Some(shape) => Ok(Some(Shape::list(alloc, shape)?)),
        None => Ok(None),
    }
}

/// The shape of tables of such keys and associates.
fn table(
    alloc: Global,
    keys: Option<Shape>,
    associates: Option<Shape>,
) -> Result<Option<Shape>, OutOfMemory>
    ensures { IfOk result (λ o. o ≡ both a_table keys associates) }
{
    let Some(keys) = keys else {
        return Ok(None);
    };
    match associates {
        Some(shape) => Ok(Some(Shape::table(alloc, keys, shape)?)),
        None => Ok(None),
    }
}

/// The shape of the types that are of both shapes.
fn joined(
    alloc: Global,
    left: Option<Shape>,
    right: Option<Shape>,
) -> Result<Option<Shape>, OutOfMemory>
    ensures { IfOk result (λ o. o ≡ joined left right) }
{
    let Some(left) = left else {
        return Ok(None);
    };
    match right {
        Some(right) => left.join(alloc, &right),
        None => Ok(None),
    }
}
