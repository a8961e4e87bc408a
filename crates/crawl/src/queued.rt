//! URLs that were read.

ghost use Rattle.std.specs.Prelude.{◌≡◌, true, string_bytes};
ghost use Rattle.crawl.specs.declared.route.Route.TheVariants.{Bad};
ghost use Rattle.crawl.specs.Leading.{LeadsAs};

use crate::route::Route;

/// A URL that was read, and is not in flight yet.
#[derive(Drop)]
pub(crate) struct Queued {
    /// The URL as it was given.
    pub(crate) url: String,
    pub(crate) route: Route,
    ghost leads: { ∥ LeadsAs (string_bytes url) route ∥₁ },
}

impl Queued {
    /// True if the URL is bad.
    pub(crate) fn is_bad(&self) -> bool
        ensures { result ≡ true → self.now.route ≡ Bad }
    {
        match self.route {
            Route::Bad => true,
            Route::To(_, _) => false,
        }
    }
}
