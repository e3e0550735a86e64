//! Laws of demands, each a function that does nothing.
ghost use Rattle.std.specs.Prelude.{◌≡◌, ℕ, ◌<◌, ◌≤◌, ◌↔◌, List, map};
ghost use Rattle.std.specs.List.{All};
ghost use Rattle.abc_num.specs.declared.types.Ground.{Ground};
ghost use Rattle.abc_terms.specs.declared.demand.Demand.{Demand};
ghost use Rattle.abc_terms.specs.Demands.{MeetsAll};
ghost use Rattle.abc_terms.specs.Nodes.{DemandIn};
ghost use Rattle.abc_terms.specs.Renamed.{renamed};

/// A law: types meet renamed demands exactly where, under the old names, they meet the demands as they were.
pub fn renamed_demands()
    ensures met { (f : ℕ → ℕ) (v : ℕ → Ground) (demands : List Demand) → MeetsAll v (map (renamed f) demands) ↔ MeetsAll (λ i. v (f i)) demands }
    ensures inside { (f : ℕ → ℕ) (n m : ℕ) (demands : List Demand) → ((i : ℕ) → i < n → f i < m) → All (DemandIn n) demands → All (DemandIn m) (map (renamed f) demands) }
{}

/// A law: whether demands on the first n variables are met is decided by the types of these alone, and they are demands
/// on any more variables too.
pub fn demands_below()
    ensures met { (n : ℕ) (v w : ℕ → Ground) (demands : List Demand) → ((i : ℕ) → i < n → v i ≡ w i) → All (DemandIn n) demands → MeetsAll v demands → MeetsAll w demands }
    ensures more { (n m : ℕ) (demands : List Demand) → n ≤ m → All (DemandIn n) demands → All (DemandIn m) demands }
{}
