//! A chunk's data, which is counted and not looked at, and the CR LF after it.
ghost use Rattle.std.specs.Prelude.{◌≡◌, ℕ, ◌+◌, ◌-◌, ◌<◌, ◌≤◌, true, false, List, [], ◌∷◌, ◌++◌};
ghost use Rattle.std.specs.Prelude.{length, take, min, None, Some};
ghost use Rattle.persistence.specs.Faults.{ShowsBadChunk};
ghost use Rattle.persistence.specs.ReadingChunks.{begins_crlf, carriage, PassesTo, IsInData};
ghost use Rattle.persistence.specs.ReadingChunks.{IsAfterData, FixesData};
ghost use Rattle.persistence.specs.ReadingHeads.{IsTaken};

/// How many bytes of the piece are data of a chunk of which so much is left, which is not nothing.
pub(crate) fn data_step(left: u64, piece: &[u8]) -> usize
    requires { 0 < left }
    ensures taken { IsTaken piece.now result }
    ensures bound { result ≤ left }
    ensures open { (text : List ℕ) (len : ℕ) → IsInData text len left → result < left
        → IsInData (text ++ take result piece.now) (len + result) (left - result) }
    ensures full { (text : List ℕ) (len : ℕ) → IsInData text len left → result ≡ left
        → IsAfterData (text ++ take result piece.now) (len + result) false }
{
    part_of(left, piece)
}

// How many bytes of the piece belong to a part of which so many are left.
fn part_of(left: u64, piece: &[u8]) -> usize
    ensures { result ≡ min left (length piece.now) }
{
    let more = piece.len() as u64;
    if more < left {
        piece.len()
    } else {
        left as usize
    }
}

/// Whether the byte after the data ends the chunk, where the CR came before it or not; nothing
/// where that is not told yet.
pub(crate) fn chunk_end_step(has_cr: bool, byte: u8) -> Option<bool>
    ensures open { result ≡ None → (text : List ℕ) (len : ℕ) → IsAfterData text len has_cr
        → IsAfterData (text ++ byte ∷ []) len true }
    ensures whole { result ≡ Some true → (text : List ℕ) (len : ℕ) → IsAfterData text len has_cr
        → PassesTo (text ++ byte ∷ []) len [] }
    ensures fault { result ≡ Some false → (text : List ℕ) (len : ℕ) → IsAfterData text len has_cr
        → ShowsBadChunk (text ++ byte ∷ []) }
    ensures fixes { result ≡ Some false → (text : List ℕ) (len : ℕ) → IsAfterData text len has_cr
        → FixesData (text ++ byte ∷ []) len }
{
    line_end_after(has_cr, byte)
}

// Whether the byte ends the line after a chunk's data, of which the CR came or not; nothing where
// that is not told yet.
fn line_end_after(has_cr: bool, byte: u8) -> Option<bool>
    ensures { result ≡ begins_crlf (carriage has_cr ++ byte ∷ []) }
{
    if has_cr {
        return Some(byte == b'\n');
    }
    if byte == b'\r' { None } else { Some(false) }
}
