//! What is kept of a unit: the signatures that it may have.
ghost use Rattle.std.specs.Prelude.{◌≡◌, Err, IfOk, OnErr};
ghost use Rattle.abc_scheme.specs.Later.{IsLater};
ghost use Rattle.abc_demand.specs.Typings.{TargetsMade};
ghost use Rattle.abc_principal.specs.Principals.{IsWhole, IsInstance, HasNone};

use crate::instances::place;
use abc_demand::{Signature, TargetVars};
use abc_num::{Items, Text};
use abc_scheme::Scheme;
use abc_tree::Template;
use abc_unify::{Graph, UnifyFault};
use std::alloc::Global;

/// The signatures that a unit may have, by the types of the targets. Own variables of the scheme are those of the targets, then
/// those of the formals, then that of the result of a function.
#[derive(Drop)]
pub struct Principal {
    pub template: Template,
    pub targets: Items<Text>,
    pub formals: usize,
    pub gives: bool,
    pub scheme: Scheme,
}

impl Principal {
    /// Adds new variables for a signature, of which is asked that the unit may have it. Targets that have no variable get one.
    /// Clash comes exactly where there is none; after a fault the graph and the variables of targets are as before.
    pub fn instance(
        &self,
        alloc: Global,
        g: &mut Graph,
        targets: &mut TargetVars,
    ) -> Result<Signature, UnifyFault>
        requires targets { TargetsMade g.old.count targets.old }
        requires whole { IsWhole self.now }
        ensures ok { IfOk result (λ s. IsInstance self.now g.old g.new targets.old targets.new s) }
        ensures clash { result ≡ Err UnifyFault.Clash → HasNone self.now g.old targets.old }
        ensures graph { OnErr result (g.new ≡ g.old) }
        ensures targets { OnErr result (targets.new ≡ targets.old) }
        ensures later { IsLater g.old g.new }
    {
        let before = g.mark();
        let count = targets.len();
        match place(alloc, g, targets, self) {
            Ok(signature) => Ok(signature),
            Err(fault) => {
                g.undo(before);
                targets.truncate(count);
                Err(fault)
            }
        }
    }
}
