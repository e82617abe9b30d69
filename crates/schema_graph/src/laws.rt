//! Laws of the definitions. Each function does nothing: its contract is the law.

ghost use Rattle.std.specs.Prelude.{◌↔◌, List};
ghost use Rattle.std.specs.Bool.{Decides};
ghost use Rattle.std.specs.Prelude.{◌≡◌, Bool, ℕ};
ghost use Rattle.schema_graph.specs.Loops.{HasLoop};
ghost use Rattle.schema_graph.specs.Walks.{In, IsLooped};

/// If each edge from one of the places leads to one of them, a loop is the same fact as a walk that comes back,
/// whatever the walk's length: the bound on the length of a loop leaves none out.
pub fn loops_are_walks_that_come_back()
    ensures { (next : ℕ → List ℕ) (places : List ℕ) → ((a b : ℕ) → In a places → In b (next a) → In b places)
        → (HasLoop next places ↔ IsLooped next places) }
{}
