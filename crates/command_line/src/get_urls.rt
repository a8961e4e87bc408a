//! The URLs among the words after `get`.

ghost use Rattle.std.specs.Prelude.{◌≡◌, false, map, string_bytes, IfErr, IfOk, OnOk};
ghost use Rattle.std.specs.List.{All, Any};
ghost use Rattle.commands.specs.Given.{url_text, url_texts};
ghost use Rattle.commands.specs.Urls.{IsBadUrl};
ghost use Rattle.command_line.specs.GetPlans.{IsGoodUrl};
ghost use Rattle.command_line.specs.Refusals.{IsWhy};

use crate::refusal::Refusal;
use crate::url_target::checked_target;
use commands::CrawlUrl;
use std::alloc::Global;

/// Returns the URLs of a crawl, each with its target unless bad ones are skipped.
///
/// # Errors
///
/// `Wrong` if a URL that may not be skipped has no target or a control character, `Memory` if
/// memory ran out.
pub(crate) fn crawl_urls(
    alloc: Global,
    urls: Vec<String>,
    skip_bad: bool,
) -> Result<Vec<CrawlUrl>, Refusal>
    ensures texts { IfOk result (λ made. url_texts made.items ≡ map string_bytes urls.items) }
    ensures good { OnOk result (skip_bad ≡ false → All IsGoodUrl (map string_bytes urls.items)) }
    ensures refused { IfErr result (IsWhy
        ((skip_bad ≡ false) × Any IsBadUrl (map string_bytes urls.items))) }
{
    let mut left = urls;
    left.reverse();
    let mut made = Vec::new(alloc);
    while let Some(text) = left.pop() {
        let url = crawl_url(alloc, text, skip_bad)?;
        let Ok(()) = made.push(url) else {
            return Err(Refusal::Memory);
        };
    }
    Ok(made)
}

// Returns a URL with its target, or without one if bad ones are skipped.
fn crawl_url(alloc: Global, text: String, skip_bad: bool) -> Result<CrawlUrl, Refusal>
    ensures text { IfOk result (λ url. url_text url ≡ string_bytes text) }
    ensures good { OnOk result (skip_bad ≡ false → IsGoodUrl (string_bytes text)) }
    ensures refused { IfErr result (IsWhy
        ((skip_bad ≡ false) × IsBadUrl (string_bytes text))) }
{
    if skip_bad {
        return Ok(CrawlUrl { text, target: None });
    }
    let target = Some(checked_target(alloc, "[URL]...", text.as_str())?);
    Ok(CrawlUrl { text, target })
}
