//! Laws over the typing rules; nothing runs.
ghost use Rattle.std.specs.Prelude.{◌≤◌, ℕ, List};
ghost use Rattle.std.specs.List.{Contains};
ghost use Rattle.abc_num.specs.declared.types.Ground.{Ground};
ghost use Rattle.abc_tree.specs.Units.{AreRising};
ghost use Rattle.abc_tree.specs.declared.commands.Command.{Command};
ghost use Rattle.abc_tree.specs.declared.commands.Unit.{Unit as Routine};
ghost use Rattle.abc_ground.specs.Groups.{Cut, whole, with_cut};
ghost use Rattle.abc_ground.specs.Typable.{Values, AreTypes, IsTypable, IsTypableWith};
ghost use Rattle.abc_fewer.specs.Fewer.{AreFewer};

/// A law: types of targets for units stay such for fewer units, and for units with fewer lines; and a command over these stays
/// typable on fewer of its own lines.
pub fn fewer_stay_typable()
    ensures types { (values : Values) (low high : List Cut) (types : List ℕ → Ground) → AreFewer low high → AreTypes values high types → AreTypes values low types }
    ensures command { (values : Values) (low high : List Cut) (c : Command) (m n : ℕ) → AreFewer low high → m ≤ n → IsTypableWith values high c n → IsTypableWith values low c m }
{}

/// A law: what is typable with a unit cut after a line is so with the unit cut after a line before it.
pub fn shorter_units_stay_typable()
    ensures fewer { (unit : Routine) (units : List Routine) (m n : ℕ) → m ≤ n → AreFewer (with_cut unit m units) (with_cut unit n units) }
    ensures typable { (values : Values) (unit : Routine) (units : List Routine) (m n : ℕ) → m ≤ n → IsTypable values (with_cut unit n units) → IsTypable values (with_cut unit m units) }
{}

/// A law: what is typable with units, which stand in the order of their templates, is so with those of them that are kept.
pub fn kept_units_stay_typable()
    ensures fewer { (kept units : List Routine) → AreRising units → ((unit : Routine) → Contains kept unit → Contains units unit) → AreFewer (whole kept) (whole units) }
    ensures typable { (values : Values) (kept units : List Routine) → AreRising units → ((unit : Routine) → Contains kept unit → Contains units unit) → IsTypable values (whole units) → IsTypable values (whole kept) }
{}
