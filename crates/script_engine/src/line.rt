//! What one line of a script does.

ghost use Rattle.std.specs.Prelude.{◌≡◌, ◌⊎◌, IfErr, string_bytes};
ghost use Rattle.script_engine.specs.Transcript.{line_step, Answers};

use crate::machine::Machine;
use script_text::{FaultKind, read_line};
use std::alloc::Global;

/// Does what a line says, and gives the lines that tell of it. Nothing changes where that is
/// refused, but for want of memory.
#[tactic(auto, unfolding(crate::specs::Transcript::line_step))]
pub fn line_text<M: Machine>(
    alloc: Global,
    machine: &mut M,
    line: &[u8],
) -> Result<String, FaultKind>
    ensures meant { Answers string_bytes (line_step (M.run machine.old) line.now) result
        (M.run machine.new) }
    ensures same { IfErr result (λ kind.
        (kind ≡ FaultKind.Memory) ⊎ (M.run machine.new ≡ M.run machine.old)) }
{
    match read_line(line) {
        Ok(Some(command)) => machine.answer(command),
        Ok(None) => Ok(String::new(alloc)),
        Err(kind) => Err(kind),
    }
}
