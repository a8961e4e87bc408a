//! The line of a transfer.

ghost use Rattle.std.specs.Prelude.{◌≡◌, Some, IfOk, string_bytes};
ghost use Rattle.client.specs.Lines.{end_text, line_of, retry_word, reuse_word};

use client::Fetched;
use exchange::Done;
use std::alloc::{AllocError, Global};
use std::fmt;

/// The end of a transfer, in words.
#[derive(Drop)]
struct EndText(Done);

impl fmt::Display for EndText {
    ghost output = { λ text. Some (end_text text.0) };

    fn fmt<W: fmt::Write>(&self, f: &mut fmt::Formatter<W>) -> fmt::Result {
        match self.0 {
            Done::Good(answer) => {
                let status = answer.status;
                let length = answer.body_len;
                let reuse = reuse_word(answer.reused);
                write!(f, "{status} {length} {reuse}")
            }
            Done::Bad(fault) => {
                let name = fault.name();
                write!(f, "{name}")
            }
        }
    }
}

/// Returns the word for a connection: reused or new.
fn reuse_word(reused: bool) -> &'static str
    ensures { result.now ≡ reuse_word reused }
{
    if reused { "reused" } else { "new" }
}

/// Returns the word for a request that was sent again, or nothing.
fn retry_word(retried: bool) -> &'static str
    ensures { result.now ≡ retry_word retried }
{
    if retried { " retried" } else { "" }
}

/// Returns the line of the transfer of that URL, with its line feed.
///
/// # Errors
///
/// There is no memory for it.
pub fn line_text(alloc: Global, url: &str, fetched: Fetched) -> Result<String, AllocError>
    ensures { IfOk result (λ text. string_bytes text ≡ line_of url.now fetched) }
{
    let end = EndText(fetched.done);
    let retry = retry_word(fetched.retried);
    format!(in alloc; "{end}{retry} {url}\n")
}
