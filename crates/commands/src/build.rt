//! How this program was built.

/// How a program was built.
#[derive(Clone, Copy, Debug, PartialEq, Eq)]
pub enum Build {
    /// The checker has proved it.
    Proved,
    /// It was compiled without proofs, with run-time checks in it, so it is slower.
    Unproved,
}

impl Build {
    /// The name of the build.
    pub fn name(self) -> &'static str {
        match self {
            Build::Proved => "proved",
            Build::Unproved => "unproved, checked",
        }
    }
}

/// How this program was built. The tool that compiles the program without proofs changes this line
/// in its copy of the sources.
pub const BUILD: Build = Build::Proved;

/// The number of the program's version.
pub const VERSION: &str = "0.3.0";

/// Returns the version that `--version` prints.
pub fn version(build: Build) -> &'static str {
    match build {
        Build::Proved => VERSION,
        Build::Unproved => "0.3.0 (unproved, with run-time checks)",
    }
}
