//! Exit statuses of the program.

ghost use Rattle.std.specs.Prelude.{◌≡◌};
ghost use Rattle.commands.specs.Statuses.{status_code};

/// Exit status of the program.
#[derive(Clone, Copy)]
pub enum Status {
    /// The script ran to its end, each URL has a good response, the report was written, or the
    /// trace is lawful.
    Done,
    /// The trace breaks a rule.
    Broken,
    /// The words are refused, or a line of the file of URLs is no URL.
    Refused,
    /// The script stopped early, or the trace cannot be read to its end.
    Stopped,
    /// A URL or all requests of a load failed, something was not written, or memory ran out.
    Failed,
    /// More requests of a load failed than `--fail-above` allows.
    FailedAbove,
    /// Ctrl-C ended the load.
    Interrupted,
}

impl Status {
    /// Returns the number with which the program ends.
    pub fn code(self) -> u8
        ensures { result ≡ status_code self }
    {
        match self {
            Status::Done => 0,
            Status::Broken => 1,
            Status::Refused => 2,
            Status::Stopped => 3,
            Status::Failed => 4,
            Status::FailedAbove => 5,
            Status::Interrupted => 130,
        }
    }
}
