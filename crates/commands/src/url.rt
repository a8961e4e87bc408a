//! URLs to fetch, and their targets.

ghost use Rattle.std.specs.Option.{ForSome};
ghost use Rattle.std.specs.Prelude.{IfOk, IfErr, string_bytes};
ghost use Rattle.conn_key.specs.Target.{GivesTarget};
ghost use Rattle.commands.specs.Urls.{IsUrlFault};

use crate::printable::has_unprintable;
use conn_key::{CountedMemory, KeyError, Target, read_target};
use std::alloc::Global;

/// A reason not to fetch a URL.
#[derive(Clone, Copy, Debug, PartialEq, Eq)]
pub enum UrlFault {
    /// There is no memory for its target.
    Memory,
    /// It has a control character, or one that turns the direction of text: its line could forge
    /// another line, or reach a terminal that obeys it.
    Unprintable,
    /// It leads to no target.
    NoTarget(KeyError),
}

/// A URL to fetch.
#[derive(Drop)]
pub struct CrawlUrl {
    /// The URL as it was given.
    pub text: String,
    /// Its target, if that was read already.
    pub target: Option<Target>,
    ghost leads: { ForSome target (λ target. ∥ GivesTarget (string_bytes text) target ∥₁) },
}

/// Returns the target of a URL.
///
/// # Errors
///
/// `Unprintable` if the URL has a control character, `NoTarget` if it is no `http` URL of at most
/// 2,048 bytes, `Memory` if memory ran out.
pub fn url_target(alloc: Global, url: &str) -> Result<Target, UrlFault>
    ensures ok { IfOk result (GivesTarget url.now) }
    ensures err { IfErr result (IsUrlFault url.now) }
{
    if has_unprintable(url) {
        return Err(UrlFault::Unprintable);
    }
    match read_target(&mut CountedMemory::new(alloc), url) {
        Ok(target) => Ok(target),
        Err(KeyError::Memory) => Err(UrlFault::Memory),
        Err(error) => Err(UrlFault::NoTarget(error)),
    }
}
