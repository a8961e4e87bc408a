//! The word by which a `site` line names a host.

ghost use Rattle.std.specs.Prelude.{◌≡◌, ◌⊎◌, None, Some, IfOk, IfErr};
ghost use Rattle.conn_key.specs.Site.{site_of};
ghost use Rattle.streams.specs.RisingCounts.{Rises};
ghost use Rattle.script_text.specs.Site.{site_named, fault_of};

use crate::fault::FaultKind;
use conn_key::{KeyError, Target, TargetMemory, read_target};
use std::marker::Model;
use std::str;

/// The word of a `site` line, which has to be a URL. Contracts see its bytes.
#[derive(Drop)]
pub struct SiteWord<'a> {
    bytes: &'a [u8],
}

impl<'a> Model for SiteWord<'a> {
    ghost use Rattle.std.specs.Prelude.{ℕ, List};

    ghost Value = { List ℕ };

    ghost view = { λ word. word.bytes.now };
}

impl<'a> SiteWord<'a> {
    /// That word.
    pub fn new(bytes: &'a [u8]) -> SiteWord<'a>
        ensures { result ≡ bytes.now }
    {
        SiteWord { bytes }
    }

    /// The target that the word leads to.
    ///
    /// Errors: `BadSite` where the word isn't UTF-8 or isn't an `http` URL of at most 2,048 bytes,
    /// and `Memory` only where the memory counted a want.
    pub fn target<M: TargetMemory>(&self, memory: &mut M) -> Result<Target, FaultKind>
        ensures ok { IfOk result (λ target. site_named self.now ≡ Some (site_of target)) }
        ensures err { IfErr result (λ kind. (kind ≡ FaultKind.Memory)
            ⊎ ((kind ≡ FaultKind.BadSite) × (site_named self.now ≡ None))) }
        ensures memory { IfErr result (λ kind. kind ≡ FaultKind.Memory
            → Rises (M.wants memory.old) (M.wants memory.new)) }
    {
        let Ok(text) = str::from_utf8(self.bytes) else {
            return Err(FaultKind::BadSite);
        };
        match read_target(memory, text) {
            Ok(target) => Ok(target),
            Err(error) => Err(fault_of(error)),
        }
    }
}

/// The fault of a `site` line whose word is refused so.
fn fault_of(error: KeyError) -> FaultKind
    ensures { result ≡ fault_of error }
{
    match error {
        KeyError::Memory => FaultKind::Memory,
        KeyError::NotUrl => FaultKind::BadSite,
        KeyError::NotHttp => FaultKind::BadSite,
        KeyError::TooLong => FaultKind::BadSite,
    }
}
