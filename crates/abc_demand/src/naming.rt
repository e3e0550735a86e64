//! Variables for the names of an item.
ghost use Rattle.std.specs.Prelude.{◌≡◌, ◌∷◌, ◌++◌, ℕ, List, [], Some, IfOk};
ghost use Rattle.abc_terms.specs.declared.term.VarId.{VarId as TheVar};
ghost use Rattle.abc_demand.specs.inner.Named.{role, roles, Named};
ghost use Rattle.abc_demand.specs.Typings.{TargetsMade};

use crate::TargetVars;
use crate::draft::Draft;
use abc_num::{Names, OutOfMemory, Text};
use abc_terms::VarId;

impl Draft {
    /// A variable for each name, in their order. Of these the flags tell which are targets: a target that has no variable
    /// is given one behind the others, also where memory is wanting later.
    pub fn names(
        &mut self,
        targets: &mut TargetVars,
        names: &Names,
        flags: &[bool],
    ) -> Result<Vec<VarId>, OutOfMemory>
        requires { TargetsMade self.old.count targets.old }
        ensures named { IfOk result (λ vars. Named self.old self.new targets.old targets.new (roles names.now 0 flags.now) vars.items) }
        ensures behind { (added : List (List ℕ × TheVar)) × (targets.new ≡ targets.old ++ added) }
    {
        let mut vars = Vec::new(self.alloc);
        let mut i: u32 = 0;
        for at in 0..flags.len() {
            let a = self.one_name(targets, names, i, flags[at])?;
            vars.push(a)?;
            if i == u32::MAX {
                return Err(OutOfMemory);
            }
            i += 1;
        }
        Ok(vars)
    }

    /// The variable of one name.
    fn one_name(
        &mut self,
        targets: &mut TargetVars,
        names: &Names,
        i: u32,
        is_target: bool,
    ) -> Result<VarId, OutOfMemory>
        requires { TargetsMade self.old.count targets.old }
        ensures named { IfOk result (λ a. Named self.old self.new targets.old targets.new (role names.now i is_target ∷ []) (a ∷ [])) }
        ensures behind { (added : List (List ℕ × TheVar)) × (targets.new ≡ targets.old ++ added) }
    {
        if !is_target {
            let a = self.fresh()?;
            return Ok(a);
        }
        let Some(name) = names.get(i) else {
            let a = self.fresh()?;
            return Ok(a);
        };
        let a = self.target(targets, name)?;
        Ok(a)
    }

    /// The variable of a target.
    fn target(&mut self, targets: &mut TargetVars, name: &Text) -> Result<VarId, OutOfMemory>
        requires { TargetsMade self.old.count targets.old }
        ensures named { IfOk result (λ a. Named self.old self.new targets.old targets.new (Some name.now ∷ []) (a ∷ [])) }
        ensures behind { (added : List (List ℕ × TheVar)) × (targets.new ≡ targets.old ++ added) }
    {
        if let Some(a) = targets.find(name) {
            return Ok(a);
        }
        let text = Text::of(self.alloc, name.bytes())?;
        let a = self.fresh()?;
        targets.add(text, a)?;
        Ok(a)
    }
}
