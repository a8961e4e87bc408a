//! A whole script from a stream.

ghost use Rattle.streams.specs.Streams.{CanCount};
ghost use Rattle.script_engine.specs.ReadScripts.{ReadsScript};

use script_text::FaultKind;
use std::alloc::Global;
use streams::Source;

/// The most bytes of a script.
pub const SCRIPT_LIMIT: usize = 1_048_576;

/// How many bytes are read at a time.
const PIECE: usize = 4096;

/// Reads a whole script.
pub fn read_script<R: Source>(alloc: Global, reader: &mut R) -> Result<Vec<u8>, FaultKind>
    requires { CanCount (R.source reader.old) }
    ensures { ReadsScript (λ v. v.items) (R.source reader.old) (R.source reader.new) result }
{
    let mut script = Vec::new(alloc);
    let mut piece = [0u8; PIECE];
    while script.len() <= SCRIPT_LIMIT {
        match reader.read_some(&mut piece) {
            Ok(0) => return Ok(script),
            Ok(count) => match script.extend_from_slice(&piece[..count]) {
                Ok(()) => {}
                Err(_) => return Err(FaultKind::Memory),
            },
            Err(_) => return Err(FaultKind::Read),
        }
    }
    Err(FaultKind::ScriptTooLong)
}
