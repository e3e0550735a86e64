//! Laws of typable workspaces.
ghost use Rattle.std.specs.Prelude.{◌≤◌, ℕ, List};
ghost use Rattle.abc_tree.specs.declared.commands.Command.{Command};
ghost use Rattle.abc_ground.specs.Groups.{Cut};
ghost use Rattle.abc_ground.specs.Typable.{Values, IsTypableWith};
ghost use Rattle.abc_check.specs.Cuts.{NodesAreCalled};

/// A law: what is typable with a command stays so where fewer lines of the command count.
pub fn fewer_lines_stay_typable()
    ensures { (values : Values) (w : List Cut) (c : Command) (m n : ℕ) → m ≤ n → IsTypableWith values w c n → IsTypableWith values w c m }
{}

/// A law: what stands in a unit as a call is among what it calls.
pub fn nodes_are_called()
    ensures { NodesAreCalled }
{}
