//! What going back means, over what callers see of a graph.
ghost use Rattle.std.specs.Prelude.{◌≡◌, ℕ, ◌≤◌, ◌↔◌, List, length};
ghost use Rattle.std.specs.List.{All};
ghost use Rattle.abc_num.specs.declared.types.Ground.{Ground};
ghost use Rattle.abc_terms.specs.Demands.{MeetsAll};
ghost use Rattle.abc_terms.specs.Nodes.{DemandIn};
ghost use Rattle.abc_num.specs.Types.{IsProper};
ghost use Rattle.abc_terms.specs.declared.term.VarId.{VarId};
ghost use Rattle.abc_terms.specs.declared.term.Term.{Term};
ghost use Rattle.abc_terms.specs.declared.demand.Demand.{Demand};
ghost use Rattle.abc_unify.specs.Graphs.{Seen, with_variable, with_demand, with_demands, with_node, back_at, HasSolution};
ghost use Rattle.abc_unify.specs.declared.forms.Known.{Known};
ghost use Rattle.abc_unify.specs.declared.forms.VaryKind.{VaryKind};
ghost use Rattle.abc_unify.specs.declared.forms.Form.TheVariants as form;
ghost use Rattle.abc_unify.specs.Forms.{IsSolution, IsForm, AreForms, AllFit, IsPart, all_said};

/// A law: going back to a mark leads to the graph at the mark, whatever was added or undone since.
pub fn undo_model()
    ensures mark { (s : Seen) → back_at s (length s.past) ≡ s }
    ensures variable { (s : Seen) (m : ℕ) → m ≤ length s.past → back_at (with_variable s) m ≡ back_at s m }
    ensures demand { (s : Seen) (d : Demand) (m : ℕ) → m ≤ length s.past → back_at (with_demand s d) m ≡ back_at s m }
    ensures demands { (s : Seen) (more : List Demand) (m : ℕ) → m ≤ length s.past → back_at (with_demands s more) m ≡ back_at s m }
    ensures node { (s : Seen) (a : VarId) (t : Term) (m : ℕ) → m ≤ length s.past → back_at (with_node s a t) m ≡ back_at s m }
    ensures undo { (s : Seen) (k m : ℕ) → m ≤ k → k ≤ length s.past → back_at (back_at s k) m ≡ back_at s m }
{}

/// A law: the forms of some variables, and of all that these lead to, decide which types they have; and two that vary
/// have one root exactly where they always agree.
pub fn forms_decide()
    ensures roots { (n : ℕ) (demands : List Demand) (a b : ℕ) (r s : VarId) (k l : VaryKind) → IsForm n demands a (form.Varies r k) → IsForm n demands b (form.Varies s l) → (r.0 ≡ s.0) ↔ ((v : ℕ → Ground) → IsSolution demands v → v a ≡ v b) }
    ensures decide { (n : ℕ) (demands : List Demand) (all : List Known) (u : ℕ → Ground) → All (DemandIn n) demands → HasSolution demands → AreForms n demands all → IsPart demands u all ↔ (All (λ e. IsProper (u e.at.0)) all × AllFit u all) }
    ensures any { (n : ℕ) (demands : List Demand) (all : List Known) (u : ℕ → Ground) → HasSolution demands → AreForms n demands all → ((w : ℕ → Ground) × MeetsAll w demands × All (λ e. w e.at.0 ≡ u e.at.0) all) ↔ AllFit u all }
    ensures said { (v : ℕ → Ground) (all : List Known) → AllFit v all ↔ MeetsAll v (all_said all) }
    ensures said_in { (n : ℕ) (demands : List Demand) (all : List Known) → HasSolution demands → AreForms n demands all → All (DemandIn n) (all_said all) }
{}
