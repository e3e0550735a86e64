//! What the definition of items means for an input that goes on.
ghost use Rattle.std.specs.Prelude.{◌≡◌, ◌++◌, Bool, List, false};
ghost use Rattle.abc_num.specs.declared.lines.Line.{Line};
ghost use Rattle.abc_num.specs.declared.lines.RawLine.{RawLine};
ghost use Rattle.abc_layout.specs.Items.{next, whole};

/// An item that is whole stays the next one, whatever lines follow and whether the input ends.
pub fn whole_stays()
    ensures { (lines more left : List RawLine) (item : List Line) (ended : Bool) → next false lines ≡ whole item left → next ended (lines ++ more) ≡ whole item (left ++ more) }
{}
