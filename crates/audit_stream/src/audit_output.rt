/// How the violations of a trace are told.
#[derive(Clone, Copy, Debug, PartialEq, Eq)]
pub struct AuditOutput {
    /// Each is told, in place of the first alone.
    pub all: bool,
    /// They are told as one JSON object, in place of lines.
    pub json: bool,
    /// A line more tells what was open at the host, and what waited there.
    pub state: bool,
}

/// What an audit finds of a trace that it can read.
#[derive(Clone, Copy, Debug, PartialEq, Eq)]
pub enum Verdict {
    /// No rule is broken.
    Lawful,
    /// A rule is broken.
    Broken,
}
