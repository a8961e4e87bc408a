//! Targets of URLs that were read.

use conn_key::Target;

/// The target of a URL, if it has one.
#[derive(Drop)]
pub(crate) enum Route {
    /// The target, and the key of its host.
    To(Target, String),
    /// None: the URL is bad.
    Bad,
}
