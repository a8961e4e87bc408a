//! Targets of URLs on the command line.

ghost use Rattle.std.specs.Prelude.{IfErr, IfOk, OnOk};
ghost use Rattle.conn_key.specs.Target.{GivesTarget};
ghost use Rattle.commands.specs.Urls.{IsBadUrl};
ghost use Rattle.command_line.specs.GetPlans.{IsGoodUrl};
ghost use Rattle.command_line.specs.Refusals.{IsWhy};

use crate::refusal::Refusal;
use commands::{Escaped, UrlFault, has_unprintable, url_target};
use conn_key::Target;
use std::alloc::Global;

/// Returns the target of a URL that is given for `option`.
///
/// # Errors
///
/// `Wrong` if the URL has no target or a control character, `Memory` if memory ran out.
pub(crate) fn checked_target(alloc: Global, option: &str, url: &str) -> Result<Target, Refusal>
    ensures target { IfOk result (GivesTarget url.now) }
    ensures good { OnOk result (IsGoodUrl url.now) }
    ensures refused { IfErr result (IsWhy (IsBadUrl url.now)) }
{
    match url_target(alloc, url) {
        // the contract of `url_target` says nothing of characters
        Ok(target) if !has_unprintable(url) => Ok(target),
        Err(UrlFault::Memory) => Err(Refusal::Memory),
        Err(UrlFault::NoTarget(error)) => {
            let hint = scheme_hint(url);
            Err(Refusal::Wrong(format!(in alloc;
                "invalid value '{url}' for '{option}': {error}{hint}"
            )?))
        }
        Ok(_) | Err(UrlFault::Unprintable) => {
            let shown = Escaped(url);
            Err(Refusal::Wrong(format!(in alloc;
                "invalid value '{shown}' for '{option}': a control character"
            )?))
        }
    }
}

/// Returns the hint for a refused URL that does not begin with `http://`.
fn scheme_hint(url: &str) -> &'static str {
    match url.split_once("://") {
        Some((scheme, _)) if scheme.eq_ignore_ascii_case("http") => "",
        _ => "; a URL begins with http://",
    }
}
