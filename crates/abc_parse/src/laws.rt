//! What the definitions of faults and trees mean together.
ghost use Rattle.std.specs.Prelude.{◌≡◌, ◌↔◌, ℕ, List, ◌∷◌, Some, None, true};
ghost use Rattle.abc_outline.specs.Outline.{is_unit};
ghost use Rattle.abc_outline.specs.Rows.{rows_of};
ghost use Rattle.abc_num.specs.declared.lines.Line.{Line};
ghost use Rattle.abc_tree.specs.declared.commands.Item.{Item};
ghost use Rattle.abc_faults.specs.Faults.{item_fault};
ghost use Rattle.abc_parse.specs.Items.{SpellsItem};
ghost use Rattle.abc_parse.specs.Readings.{item_of};
ghost use Rattle.abc_parse.specs.RegularTemplates.{HasRegularTemplates};
ghost use Rattle.abc_parse.specs.RegularTrees.{IsNumberedItem, IsRegularItem};

use abc_clauses::{
    computed_alternative, computed_command, computed_heading, computed_refinement, edges_of_lines,
    lines_are_regular,
};

/// Lines have at most one item.
pub fn one_item()
    ensures { (lines : List Line) (targets : List (List ℕ)) (x y : Item) → SpellsItem lines targets x → SpellsItem lines targets y → x ≡ y }
{}

/// Lines without a fault spell an item.
pub fn faultless()
    ensures { (first : Line) (rest : List Line) (targets : List (List ℕ)) → item_fault (first ∷ rest) targets ≡ None → (item : Item) × SpellsItem (first ∷ rest) targets item }
{}

/// The item that lines without a fault spell is what is computed for them.
pub fn computed_item()
    ensures { (lines : List Line) (targets : List (List ℕ)) (item : Item) → (SpellsItem lines targets item × (item_fault lines targets ≡ None)) ↔ (item_of lines targets ≡ Some item) }
{}

/// What a unit is, and its fault, depend on its lines alone: not on the targets.
pub fn unit_alone()
    ensures fault { (lines : List Line) (s t : List (List ℕ)) → is_unit (rows_of lines) ≡ true → item_fault lines s ≡ item_fault lines t }
    ensures computed { (lines : List Line) (s t : List (List ℕ)) → is_unit (rows_of lines) ≡ true → item_of lines s ≡ item_of lines t }
    ensures tree { (lines : List Line) (s t : List (List ℕ)) (item : Item) → is_unit (rows_of lines) ≡ true → SpellsItem lines s item → SpellsItem lines t item }
{}

/// The template of the unit that is computed for lines is regular, and so is each that an item calls.
pub fn regular_templates()
    ensures { (lines : List Line) (targets : List (List ℕ)) (item : Item) → item_of lines targets ≡ Some item → HasRegularTemplates item }
{
    computed_command();
    computed_alternative();
    computed_heading();
    computed_refinement();
    edges_of_lines();
    lines_are_regular();
}

/// The command or unit that is computed for lines is regular.
pub fn regular_items()
    ensures { (lines : List Line) (targets : List (List ℕ)) (item : Item) → item_of lines targets ≡ Some item → IsRegularItem item }
{
    computed_command();
    computed_alternative();
    computed_heading();
    computed_refinement();
    edges_of_lines();
    lines_are_regular();
}

/// The numbers that are written in the command or unit that is computed for lines are numbers.
pub fn numbered_items()
    ensures { (lines : List Line) (targets : List (List ℕ)) (item : Item) → item_of lines targets ≡ Some item → IsNumberedItem item }
{
    computed_command();
    computed_alternative();
    computed_heading();
    computed_refinement();
    edges_of_lines();
    lines_are_regular();
}
