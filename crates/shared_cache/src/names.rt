use std::marker::Brand;

/// The names of one shared cache: its limits, and the tables that its locks' values belong to.
/// Contracts alone see them. A type that carries them tells what each lock of the cache holds.
///
/// Code that uses a cache is a function over `N: Names`, which asks for a plan of these names. Who
/// makes the plan calls it with std's [`Brand`], and its proof picks the names: those of the plan.
pub trait Names {
    ghost use Rattle.shared_cache.specs.Names.{CacheNames};

    ghost names: { CacheNames };
}

impl Names for Brand {
    ghost use Rattle.shared_cache.specs.Names.{no_names};

    ghost names = { no_names };
}
