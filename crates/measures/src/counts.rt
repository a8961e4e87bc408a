//! What was counted, or why nothing was.

/// What was counted.
#[derive(Clone, Copy)]
pub(crate) enum Counts {
    /// How many rounds got what they asked for.
    Rounds(u64),
    /// How many rounds were of the kind that is named, and how many connections were opened.
    Connections {
        rounds: u64,
        kind: &'static str,
        opened: u64,
    },
}

impl Counts {
    /// Prints a line.
    pub fn print(self, rt: &HostRuntime) -> Result<(), MeasureError> {
        let printed = match self {
            Counts::Rounds(rounds) => println!(rt; "{rounds}"),
            Counts::Connections {
                rounds,
                kind,
                opened,
            } => println!(rt; "{rounds} {kind}, {opened} opened"),
        };
        match printed {
            Ok(()) => Ok(()),
            Err(_) => Err(MeasureError::Output),
        }
    }
}

/// Why nothing was counted.
#[derive(Clone, Copy)]
pub(crate) enum MeasureError {
    /// The words are wrong.
    Words,
    /// Memory ran out.
    Memory,
    /// What was counted could not be written.
    Output,
}
