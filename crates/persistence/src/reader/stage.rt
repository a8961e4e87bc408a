//! How far the reading of a response has come.
ghost use Rattle.std.specs.Prelude.{◌≡◌, ℕ, List, ◌++◌, Some};
ghost use Rattle.persistence.specs.declared.answer.ReadFault.{ReadFault};
ghost use Rattle.persistence.specs.declared.method.Method.{Method};
ghost use Rattle.persistence.specs.ReadingHeads.{AwaitsHeads, EndsHeadsIn};
ghost use Rattle.persistence.specs.ReadingStages.{IsInBody, IsAtStage, fault_at};

use crate::body::state::BodyState;
use crate::body::{begin_body, feed_body};
use crate::head::Head;
use crate::head::heads_step::heads_step;
use crate::reader::buffer::Buffer;
use crate::{Method, ReadFault};

/// How far the reading of a response has come.
#[derive(Clone, Copy, Debug)]
pub(crate) enum Stage {
    /// In a head; so many interim heads came before it.
    Heads {
        skipped: usize,
    },
    /// After the final head.
    Body {
        head: Head,
        body: BodyState,
    },
    /// A fault was found; the final head, if it came before, and the number of body bytes before
    /// the fault.
    Fault {
        fault: ReadFault,
        head: Option<Head>,
        len: u64,
    },
}

/// How far the reading has come after one piece more.
#[inline(always)]
pub(crate) fn stage_after(method: Method, buffer: &mut Buffer, stage: Stage, piece: &[u8]) -> Stage
    requires known { (bytes : List ℕ) × IsAtStage method bytes stage buffer.old }
    ensures reached { (bytes : List ℕ) → IsAtStage method bytes stage buffer.old
        → IsAtStage method (bytes ++ piece.now) result buffer.new }
    ensures again { (fault : ReadFault) → fault_at stage ≡ Some fault → result ≡ stage }
{
    match stage {
        Stage::Heads { skipped } => after_heads(method, buffer, skipped, piece),
        Stage::Body { head, body } => after_body(head, body, buffer, piece),
        Stage::Fault { fault, head, len } => Stage::Fault { fault, head, len },
    }
}

// How far it has come where a head was due before the piece. Not inlined, so that a piece of a body
// need not make room for the places of a head's fields.
#[inline(never)]
fn after_heads(method: Method, buffer: &mut Buffer, skipped: usize, piece: &[u8]) -> Stage
    requires known { (bytes : List ℕ) × AwaitsHeads bytes skipped buffer.old }
    ensures reached { (bytes : List ℕ) → AwaitsHeads bytes skipped buffer.old
        → IsAtStage method (bytes ++ piece.now) result buffer.new }
{
    let mut at = 0;
    let mut count = skipped;
    while at < piece.len() {
        let rest = &piece[at..];
        let step = match heads_step(buffer, count, rest) {
            Ok(step) => step,
            Err(fault) => {
                return Stage::Fault {
                    fault,
                    head: None,
                    len: 0,
                };
            }
        };
        if let Some(head) = step.head {
            return after_head(method, head, buffer, &rest[step.used..]);
        }
        at += step.used;
        count = step.skipped;
    }
    Stage::Heads { skipped: count }
}

// How far it has come where the final head ended just before the piece.
fn after_head(method: Method, head: Head, buffer: &mut Buffer, piece: &[u8]) -> Stage
    requires known { (bytes : List ℕ) × EndsHeadsIn bytes buffer.old head }
    ensures reached { (bytes : List ℕ) → EndsHeadsIn bytes buffer.old head
        → IsAtStage method (bytes ++ piece.now) result buffer.new }
{
    match begin_body(head.body_kind(method), head.fields.counted) {
        Ok(body) => after_body(head, body, buffer, piece),
        Err(fault) => Stage::Fault {
            fault,
            head: Some(head),
            len: 0,
        },
    }
}

// How far it has come where the body was due before the piece.
#[inline(always)]
fn after_body(head: Head, body: BodyState, buffer: &mut Buffer, piece: &[u8]) -> Stage
    requires known { (method : Method) × (bytes : List ℕ)
        × IsInBody method bytes head body buffer.old }
    ensures reached { (method : Method) (bytes : List ℕ)
        → IsInBody method bytes head body buffer.old
        → IsAtStage method (bytes ++ piece.now) result buffer.new }
{
    let mut body = body;
    match feed_body(&mut body, buffer, piece) {
        Ok(()) => Stage::Body { head, body },
        Err(fault) => Stage::Fault {
            fault,
            head: Some(head),
            len: body.len(),
        },
    }
}
