ghost use Rattle.std.specs.Prelude.{◌≡◌, ◌≤◌, IfOk, IfErr};
ghost use Rattle.conn_key.specs.declared.target.KeyError.TheVariants.{Memory};
ghost use Rattle.conn_key.specs.Target.{IsHttp, LeadsTo, GivesTarget, Refuses};
ghost use Rattle.streams.specs.RisingCounts.{Rises};

use crate::memory::TargetMemory;
use std::alloc::AllocError;
use thiserror::Error;
use url::{ParseError, Url};

/// The most bytes that a URL may have.
const MOST_URL_BYTES: usize = 2048;

/// Where a transfer leads to: what is opened, and what is asked for there.
#[derive(Debug, Drop)]
pub struct Target {
    /// The host of the URL: a name in lower case, an IPv4 address, or an IPv6 address in brackets.
    pub host: String,
    /// The port of the URL, 80 where it has none.
    pub port: u16,
    /// The path of the URL, and its query with the `?` where it has one.
    pub path: String,
}

/// Why a text gives no target: there is no memory for it, the URL Standard's parser refuses it, its
/// scheme isn't `http`, or it has more than 2,048 bytes.
#[derive(Clone, Copy, Debug, PartialEq, Eq, Error)]
pub enum KeyError {
    #[error("out of memory")]
    Memory,
    #[error("not a URL")]
    NotUrl,
    #[error("not an http URL")]
    NotHttp,
    #[error("a URL of more than 2048 bytes")]
    TooLong,
}

impl From<AllocError> for KeyError {
    ghost use Rattle.std.specs.Prelude.{◌≡◌};
    ghost use Rattle.conn_key.specs.declared.target.KeyError.TheVariants.{Memory};

    ghost from_gives = { λ _ e. e ≡ Memory };

    fn from(_: AllocError) -> KeyError {
        KeyError::Memory
    }
}

/// The target that a text leads to: the host, port and path of the URL that the text is by the URL
/// Standard's parser, without its user data and fragment.
///
/// Errors, in this order: `TooLong` where the text has more than 2,048 bytes, `NotUrl` where the
/// parser refuses it, `NotHttp` where the scheme isn't `http`. `Memory` comes only where the memory
/// counted a want, in place of any but `TooLong`.
pub fn read_target<M: TargetMemory>(memory: &mut M, text: &str) -> Result<Target, KeyError>
    ensures target { IfOk result (GivesTarget text.now) }
    ensures refused { IfErr result (Refuses text.now) }
    ensures memory { IfErr result (λ error. error ≡ Memory
        → Rises (M.wants memory.old) (M.wants memory.new)) }
{
    if text.len() > MOST_URL_BYTES {
        return Err(KeyError::TooLong);
    }
    let url = match memory.parse(text) {
        Ok(url) => url,
        Err(ParseError::OutOfMemory | ParseError::Overflow) => return Err(KeyError::Memory),
        Err(_) => return Err(KeyError::NotUrl),
    };
    if url.scheme() != "http" {
        return Err(KeyError::NotHttp);
    }
    let target = target_of(memory, &url)?;
    Ok(target)
}

/// The target that an http URL leads to.
fn target_of<M: TargetMemory>(memory: &mut M, url: &Url) -> Result<Target, AllocError>
    requires { IsHttp url.now }
    ensures target { IfOk result (LeadsTo url.now) }
    ensures wants { IfErr result (λ _. Rises (M.wants memory.old) (M.wants memory.new)) }
    ensures kept { M.wants memory.old ≤ M.wants memory.new }
{
    let mut path = memory.copy(url.path())?;
    if let Some(query) = url.query() {
        memory.add(&mut path, "?")?;
        memory.add(&mut path, query)?;
    }
    // An http URL has a host.
    let host = memory.copy(url.host_str().unwrap())?;
    Ok(Target {
        host,
        port: url.port().unwrap_or(80),
        path,
    })
}
