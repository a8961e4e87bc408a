//! The bytes of a counted body, which are not looked at.
ghost use Rattle.std.specs.Prelude.{ℕ, ◌≤◌, List, ◌++◌};
ghost use Rattle.persistence.specs.ReadingBody.{CountsBody};

/// What came of a body, so far.
#[derive(Clone, Copy, Debug)]
pub(crate) struct Came {
    /// How many of its bytes.
    pub len: u64,
    /// Whether that is all of it.
    pub whole: bool,
    /// Whether bytes came after it.
    pub surplus: bool,
}

/// What came of a body of so many bytes, after one piece more.
pub(crate) fn count_piece(count: u64, came: Came, piece: &[u8]) -> Came
    requires { came.len ≤ count }
    ensures { (text : List ℕ) → CountsBody count text came
        → CountsBody count (text ++ piece.now) result }
{
    let left = count - came.len;
    let more = piece.len() as u64;
    if more < left {
        return Came {
            len: came.len + more,
            whole: false,
            surplus: false,
        };
    }
    Came {
        len: count,
        whole: true,
        surplus: came.surplus || left < more,
    }
}
