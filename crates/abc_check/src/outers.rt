//! Variables for types of one kind, whose parts have variables.
ghost use Rattle.std.specs.Prelude.{◌≡◌, [], Err, IfOk};
ghost use Rattle.abc_terms.specs.Nodes.{IsNode};
ghost use Rattle.abc_unify.specs.Graphs.{with_variable, with_node};
ghost use Rattle.abc_demand.specs.Typings.{AreMade};
ghost use Rattle.abc_scheme.specs.Later.{IsLater};
ghost use Rattle.abc_value.specs.declared.shape.ShapeKind.TheVariants as kind;
ghost use Rattle.abc_check.specs.inner.Shaped.{IsOuterVar, NoOuterVar};

use abc_terms::{Term, VarId};
use abc_unify::{Graph, UnifyFault};
use abc_value::ShapeKind;
use std::alloc::Global;

/// A new variable, of which nothing is asked.
fn fresh_var(graph: &mut Graph) -> Result<VarId, UnifyFault>
    ensures number { IfOk result (λ a. a.0 ≡ graph.old.count) }
    ensures ok { IfOk result (λ a. graph.new ≡ with_variable graph.old) }
    ensures clash { result ≡ Err UnifyFault.Clash → ⊥ }
    ensures later { IsLater graph.old graph.new }
{
    let a = graph.fresh()?;
    Ok(a)
}

/// A new variable that is this term.
fn node_var(graph: &mut Graph, term: Term) -> Result<VarId, UnifyFault>
    requires { IsNode graph.old.count term }
    ensures number { IfOk result (λ a. a.0 ≡ graph.old.count) }
    ensures ok { IfOk result (λ a. graph.new ≡ with_node graph.old a term) }
    ensures clash { result ≡ Err UnifyFault.Clash → ⊥ }
    ensures later { IsLater graph.old graph.new }
{
    let a = graph.node(term)?;
    Ok(a)
}

/// A variable for any type.
fn any_var(graph: &mut Graph) -> Result<VarId, UnifyFault>
    ensures made { IfOk result (λ a. IsOuterVar kind.Anything [] graph.old graph.new a) }
    ensures clash { result ≡ Err UnifyFault.Clash → ⊥ }
    ensures later { IsLater graph.old graph.new }
{
    let _count = graph.count();
    fresh_var(graph)
}

/// A variable for numbers.
fn number_var(graph: &mut Graph) -> Result<VarId, UnifyFault>
    ensures made { IfOk result (λ a. IsOuterVar kind.Number [] graph.old graph.new a) }
    ensures clash { result ≡ Err UnifyFault.Clash → ⊥ }
    ensures later { IsLater graph.old graph.new }
{
    let _count = graph.count();
    node_var(graph, Term::Number)
}

/// A variable for texts.
fn text_var(graph: &mut Graph) -> Result<VarId, UnifyFault>
    ensures made { IfOk result (λ a. IsOuterVar kind.Text [] graph.old graph.new a) }
    ensures clash { result ≡ Err UnifyFault.Clash → ⊥ }
    ensures later { IsLater graph.old graph.new }
{
    let _count = graph.count();
    node_var(graph, Term::Text)
}

/// A variable for any list and any table.
fn collection_var(graph: &mut Graph) -> Result<VarId, UnifyFault>
    ensures made { IfOk result (λ a. IsOuterVar kind.Collection [] graph.old graph.new a) }
    ensures clash { result ≡ Err UnifyFault.Clash → NoOuterVar kind.Collection [] graph.old }
    ensures later { IsLater graph.old graph.new }
{
    let _count = graph.count();
    let a = fresh_var(graph)?;
    let element = fresh_var(graph)?;
    graph.collection(a, element)?;
    Ok(a)
}

/// A variable for lists of elements of this type.
fn list_var(alloc: Global, graph: &mut Graph, parts: &[VarId]) -> Result<VarId, UnifyFault>
    requires { AreMade graph.old.count parts.now }
    ensures made { IfOk result (λ a. IsOuterVar kind.List parts.now graph.old graph.new a) }
    ensures clash { result ≡ Err UnifyFault.Clash → NoOuterVar kind.List parts.now graph.old }
    ensures later { IsLater graph.old graph.new }
{
    let _count = graph.count();
    if parts.len() != 1 {
        return Err(UnifyFault::Clash);
    }
    let term = Term::list_of(alloc, parts[0])?;
    node_var(graph, term)
}

/// A variable for tables of keys and associates of these types.
fn table_var(alloc: Global, graph: &mut Graph, parts: &[VarId]) -> Result<VarId, UnifyFault>
    requires { AreMade graph.old.count parts.now }
    ensures made { IfOk result (λ a. IsOuterVar kind.Table parts.now graph.old graph.new a) }
    ensures clash { result ≡ Err UnifyFault.Clash → NoOuterVar kind.Table parts.now graph.old }
    ensures later { IsLater graph.old graph.new }
{
    let _count = graph.count();
    if parts.len() != 2 {
        return Err(UnifyFault::Clash);
    }
    let term = Term::table_of(alloc, parts[0], parts[1])?;
    node_var(graph, term)
}

/// A variable for compounds of fields of these types. No proper type is a compound of fewer than two.
fn compound_var(alloc: Global, graph: &mut Graph, parts: &[VarId]) -> Result<VarId, UnifyFault>
    requires { AreMade graph.old.count parts.now }
    ensures made { IfOk result (λ a. IsOuterVar kind.Compound parts.now graph.old graph.new a) }
    ensures clash { result ≡ Err UnifyFault.Clash → NoOuterVar kind.Compound parts.now graph.old }
    ensures later { IsLater graph.old graph.new }
{
    let _count = graph.count();
    if parts.len() < 2 {
        return Err(UnifyFault::Clash);
    }
    let term = Term::compound_of(alloc, parts)?;
    node_var(graph, term)
}

/// A variable for types of this kind, with parts of these types. Clash comes only where there is none.
pub(crate) fn outer_var(
    alloc: Global,
    graph: &mut Graph,
    kind: ShapeKind,
    parts: &[VarId],
) -> Result<VarId, UnifyFault>
    requires { AreMade graph.old.count parts.now }
    ensures made { IfOk result (λ a. IsOuterVar kind parts.now graph.old graph.new a) }
    ensures clash { result ≡ Err UnifyFault.Clash → NoOuterVar kind parts.now graph.old }
    ensures later { IsLater graph.old graph.new }
{
    match kind {
        ShapeKind::Anything => any_var(graph),
        ShapeKind::Number => number_var(graph),
        ShapeKind::Text => text_var(graph),
        ShapeKind::Collection => collection_var(graph),
        ShapeKind::Compound => compound_var(alloc, graph, parts),
        ShapeKind::List => list_var(alloc, graph, parts),
        ShapeKind::Table => table_var(alloc, graph, parts),
    }
}
