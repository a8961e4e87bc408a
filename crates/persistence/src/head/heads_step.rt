//! The heads of a response that come in pieces: interim ones, and the final one.
ghost use Rattle.std.specs.Prelude.{◌≡◌, ◌<◌, ◌≤◌, List, ℕ, ◌++◌, length};
ghost use Rattle.std.specs.Prelude.{IfOk, IfErr};
ghost use Rattle.persistence.specs.declared.method.Method.{Method};
ghost use Rattle.persistence.specs.Limits.{most_head_bytes, most_interims};
ghost use Rattle.persistence.specs.Heads.{is_interim_status};
ghost use Rattle.persistence.specs.Faults.{IsFirstFault};
ghost use Rattle.persistence.specs.ReadingHeads.{IsTaken, IsAwaited, AwaitsHeads};
ghost use Rattle.persistence.specs.ReadingHeads.{NeverHasFinalHead, TellsHeadsStep};

use crate::ReadFault;
use crate::head::Head;
use crate::head::head_step::head_step;
use crate::limits::MOST_INTERIMS;
use crate::reader::buffer::Buffer;

/// What a piece adds to the heads.
#[derive(Clone, Copy, Debug)]
pub(crate) struct HeadsStep {
    /// How many bytes of the piece belong to the head that is due.
    pub used: usize,
    /// How many interim heads came before the head that is due now.
    pub skipped: usize,
    /// What the final head says, once it is whole.
    pub head: Option<Head>,
}

/// Adds the piece to the bytes of the head that is due, as far as they belong to it, where so many
/// interim heads came before it.
pub(crate) fn heads_step(
    buffer: &mut Buffer,
    skipped: usize,
    piece: &[u8],
) -> Result<HeadsStep, ReadFault>
    requires awaited { IsAwaited buffer.old }
    requires short { length buffer.old < most_head_bytes }
    requires few { skipped ≤ most_interims }
    ensures taken { IfOk result (λ step. IsTaken piece.now step.used) }
    ensures found { (bytes : List ℕ) → AwaitsHeads bytes skipped buffer.old
        → IfOk result (TellsHeadsStep bytes piece.now buffer.new) }
    ensures fault { (bytes : List ℕ) → AwaitsHeads bytes skipped buffer.old
        → IfErr result
        (λ fault. (method : Method) → IsFirstFault method (bytes ++ piece.now) fault) }
    ensures none { (bytes : List ℕ) → AwaitsHeads bytes skipped buffer.old
        → IfErr result (λ _. NeverHasFinalHead (bytes ++ piece.now)) }
{
    let step = match head_step(buffer, piece) {
        Ok(step) => step,
        Err(fault) => return Err(fault),
    };
    let Some(head) = step.head else {
        return Ok(HeadsStep {
            used: step.used,
            skipped,
            head: None,
        });
    };
    if !is_interim(head.status) {
        return Ok(HeadsStep {
            used: step.used,
            skipped,
            head: Some(head),
        });
    }
    if skipped == MOST_INTERIMS {
        return Err(ReadFault::TooManyInterims);
    }
    Ok(HeadsStep {
        used: step.used,
        skipped: skipped + 1,
        head: None,
    })
}

// Whether a head of that status is an interim one.
fn is_interim(status: u16) -> bool
    ensures { result ≡ is_interim_status status }
{
    100 <= status && status <= 199 && status != 101
}
