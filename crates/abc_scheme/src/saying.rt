//! Forms as demands.
ghost use Rattle.std.specs.Prelude.{◌≡◌, ℕ, ◌++◌, IfOk, OnOk};
ghost use Rattle.std.specs.List.{All};
ghost use Rattle.abc_terms.specs.Nodes.{DemandIn};
ghost use Rattle.abc_unify.specs.Forms.{said, said_kind, all_said};

use abc_num::OutOfMemory;
use abc_terms::{Demand, Term, VarId};
use abc_unify::{Form, Known, VaryKind};
use std::alloc::Global;

/// Adds what a kind says of a variable.
fn say_kind(a: VarId, kind: VaryKind, demands: &mut Vec<Demand>) -> Result<(), OutOfMemory>
    ensures { OnOk result (demands.new.items ≡ demands.old.items ++ said_kind a kind) }
{
    match kind {
        VaryKind::Free => Ok(()),
        VaryKind::Train(e) => {
            demands.push(Demand::Train(a, e))?;
            Ok(())
        }
        VaryKind::Collection(e) => {
            demands.push(Demand::Collection(a, e))?;
            Ok(())
        }
        VaryKind::NumberOrText => {
            demands.push(Demand::NumberOrText(a))?;
            Ok(())
        }
    }
}

/// Adds what a form says of a variable.
fn say(alloc: Global, a: VarId, form: &Form, demands: &mut Vec<Demand>) -> Result<(), OutOfMemory>
    requires { (n : ℕ) × All (DemandIn n) (said a form.now) }
    ensures { OnOk result (demands.new.items ≡ demands.old.items ++ said a form.now) }
{
    match form {
        Form::Number => {
            demands.push(Demand::Is(a, Term::Number))?;
            Ok(())
        }
        Form::Text => {
            demands.push(Demand::Is(a, Term::Text))?;
            Ok(())
        }
        Form::Compound(fields) => {
            let term = Term::compound_of(alloc, fields.as_slice())?;
            demands.push(Demand::Is(a, term))?;
            Ok(())
        }
        Form::List(element) => {
            let term = Term::list_of(alloc, *element)?;
            demands.push(Demand::Is(a, term))?;
            Ok(())
        }
        Form::Table(key, associate) => {
            let term = Term::table_of(alloc, *key, *associate)?;
            demands.push(Demand::Is(a, term))?;
            Ok(())
        }
        Form::Varies { root, kind } => {
            demands.push(Demand::Equal(a, *root))?;
            say_kind(a, *kind, demands)?;
            Ok(())
        }
    }
}

/// What all of these forms say.
pub fn say_all(alloc: Global, all: &[Known]) -> Result<Vec<Demand>, OutOfMemory>
    requires { (n : ℕ) × All (DemandIn n) (all_said all.now) }
    ensures { IfOk result (λ demands. demands.items ≡ all_said all.now) }
{
    let mut demands = Vec::new(alloc);
    for known in all {
        say(alloc, known.at, &known.form, &mut demands)?;
    }
    Ok(demands)
}
