//! The files that a load writes.

ghost use Rattle.std.specs.Prelude.{◌≡◌};

use crate::load::failure::LoadFailure;
use crate::load::fault::OUT_OF_MEMORY;
use commands::{FileAction, LoadPlan, file_fault_text};
use std::alloc::Global;
use std::fs::{self, File};
use std::io::{Error, ErrorKind};
use streams::FailureCounted;

/// The files that a load writes, if they are named.
#[derive(Drop)]
pub(crate) struct LoadFiles<'a> {
    /// The file for the trace.
    pub(crate) traced: Option<OutputFile<'a>>,
    /// The file for the picture.
    pub(crate) pictured: Option<OutputFile<'a>>,
}

impl<'a> LoadFiles<'a> {
    /// Creates the files that a plan names, or truncates them.
    ///
    /// # Errors
    ///
    /// The message with the name of a file that could not be created.
    pub(crate) fn create(
        system: &HostRuntime,
        alloc: Global,
        plan: &'a LoadPlan,
    ) -> Result<LoadFiles<'a>, LoadFailure> {
        let traced = named_file(system, alloc, &plan.trace)?;
        let pictured = named_file(system, alloc, &plan.picture)?;
        Ok(LoadFiles { traced, pictured })
    }
}

/// A file that a load writes, with its name. No write to it has failed.
#[derive(Drop)]
pub(crate) struct OutputFile<'a> {
    pub(crate) name: &'a str,
    pub(crate) file: FailureCounted<File>,
    ghost sound: { file.failures ≡ 0 },
}

/// Returns the failure of a load that could not write the named file.
pub(crate) fn unwritten(alloc: Global, name: &str, reason: Option<Error>) -> LoadFailure {
    match file_fault_text(alloc, FileAction::Write, name, reason) {
        Ok(text) => LoadFailure::File(text),
        Err(_) => LoadFailure::Fault(OUT_OF_MEMORY),
    }
}

// Creates the named file, if one is named, or truncates it.
fn named_file<'a>(
    system: &HostRuntime,
    alloc: Global,
    name: &'a Option<String>,
) -> Result<Option<OutputFile<'a>>, LoadFailure> {
    let Some(name) = name else {
        return Ok(None);
    };
    let name = name.as_str();
    match fs::create(system, name) {
        Ok(file) => Ok(Some(OutputFile {
            name,
            file: FailureCounted::new(file),
        })),
        Err(error) if error.kind() == ErrorKind::OutOfMemory => Err(OUT_OF_MEMORY.into()),
        Err(error) => Err(unwritten(alloc, name, Some(error))),
    }
}
