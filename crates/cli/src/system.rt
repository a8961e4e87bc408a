//! Files, network and standard streams of the program.

/// Files, network and standard streams of the program.
#[derive(Drop)]
pub struct System<F, N, R, W, E> {
    pub files: F,
    pub network: N,
    /// Standard input.
    pub input: R,
    /// True if standard input is a terminal.
    pub is_typed: bool,
    /// Standard output.
    pub output: W,
    /// Standard error.
    pub errors: E,
}
