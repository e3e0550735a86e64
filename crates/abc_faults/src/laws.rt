//! What the definition of a fault means.
ghost use Rattle.std.specs.Prelude.{◌≡◌, ℕ, List, [], Some, None};
ghost use Rattle.abc_outline.specs.declared.rows.Row.{Row};
ghost use Rattle.abc_faults.specs.declared.facts.Facts.{Facts};
ghost use Rattle.abc_faults.specs.declared.fault.Fault.{Fault};
ghost use Rattle.abc_faults.specs.declared.fault.FaultKind.{FaultKind};
ghost use Rattle.abc_faults.specs.Faults.{fault_from, IsFirst, StandsAt};

/// The fault of lines is the first that stands in the first faulty line; where there is none, none stands.
pub fn least_fault()
    ensures found { (facts : Facts) (rows : List Row) (at : Fault) → fault_from facts [] rows ≡ Some at → IsFirst facts rows at }
    ensures none { (facts : Facts) (rows : List Row) → fault_from facts [] rows ≡ None → (n : ℕ) (kind : FaultKind) → StandsAt facts [] rows n kind → ⊥ }
{}
