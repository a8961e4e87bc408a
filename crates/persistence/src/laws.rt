//! A law of the definitions.
ghost use Rattle.std.specs.Prelude.{◌≡◌, List, ℕ, Bool};
ghost use Rattle.persistence.specs.declared.method.Method.{Method};
ghost use Rattle.persistence.specs.Split.{Parts, IsSplit};

/// The bytes of a response can be told apart in at most one way: into interim heads, the final
/// head, the body and what follows.
pub fn split_is_unique()
    ensures { (method : Method) (bytes : List ℕ) (ended : Bool) (one other : Parts)
        → IsSplit method bytes ended one → IsSplit method bytes ended other → one ≡ other }
{}
