//! Laws of the typing rules.
ghost use Rattle.std.specs.Prelude.{◌≡◌, ◌↔◌, ℕ, List, [], Option};
ghost use Rattle.abc_num.specs.declared.types.Ground.{Ground};
ghost use Rattle.abc_tree.specs.Calls.{unit_nodes, command_nodes};
ghost use Rattle.abc_tree.specs.declared.templates.Template.{Template};
ghost use Rattle.abc_tree.specs.declared.commands.Command.{Command};
ghost use Rattle.abc_tree.specs.declared.commands.Unit.{Unit as Routine};
ghost use Rattle.abc_ground.specs.Seen.{unit_upto, command_upto};
ghost use Rattle.abc_ground.specs.Fits.{Signature, Typing};
ghost use Rattle.abc_ground.specs.Calls.{each_templates, next_of, any_allowed, AreAllowed};
ghost use Rattle.abc_ground.specs.Items.{UnitFits, CommandFits};
ghost use Rattle.abc_ground.specs.Groups.{Cut};
ghost use Rattle.abc_ground.specs.Typable.{IsUsed, IsOffered, MayWithin};

/// A law: the calls that the rules see in a unit and in a command are those that stand in it, in the order of the text.
pub fn calls_are_seen()
    ensures unit { (n : ℕ) (unit : Routine) → each_templates (unit_upto n unit) ≡ unit_nodes n unit }
    ensures command { (n : ℕ) (c : Command) → each_templates (command_upto n c) ≡ command_nodes n c }
{}

/// A law: a unit and a command fit, each call at a signature that it may use, exactly where they fit at a list of such
/// signatures, one for each call in the order of the text.
pub fn signatures_are_listed()
    ensures unit { (w : List Cut) (targets : List ℕ → Ground) (home : Template) (member : Template → Signature) (level n : ℕ) (unit : Routine) (g : Typing) (s : Signature) → UnitFits (any_allowed (λ t o. IsUsed w home member (λ u m. MayWithin w targets level u m) t o)) targets n unit g s tt tt ↔ ((ss : List (Option Signature)) × AreAllowed (λ t o. IsUsed w home member (λ u m. MayWithin w targets level u m) t o) (unit_nodes n unit) ss × UnitFits next_of targets n unit g s ss []) }
    ensures command { (w : List Cut) (targets : List ℕ → Ground) (n : ℕ) (c : Command) (g : Typing) → CommandFits (any_allowed (λ t o. IsOffered w targets t o)) targets n c g tt tt ↔ ((ss : List (Option Signature)) × AreAllowed (λ t o. IsOffered w targets t o) (command_nodes n c) ss × CommandFits next_of targets n c g ss []) }
{}
