//! The files that the words of a command name.

ghost use Rattle.std.specs.Prelude.{⊤};

use crate::failure_counted::FailureCounted;
use crate::sink::Sink;
use crate::source::Source;
use std::fs::File;
use std::{fs, io};

/// Opens and creates files by name.
pub trait Files {
    ghost use Rattle.std.specs.Prelude.{ℕ, List, Option, IfOk};
    ghost use Rattle.streams.specs.Streams.{CanCount, Stream, opened_stream};

    /// A file that is open.
    type File: Source + Drop;

    /// A file that was made.
    type Made: Sink + Drop;

    /// Whether opening the file of that name gives that stream, or none if it can't be opened, and
    /// leaves the files so.
    ghost opens: { Self → Self → List ℕ → Option Stream → Type 0 };

    /// Opens the file of that name.
    ///
    /// # Errors
    ///
    /// The system's reason why it cannot be opened.
    fn open(&mut self, name: &str) -> io::Result<Self::File>
        ensures opened { opens self.old self.new name.now (opened_stream Self.File.source result) }
        ensures counts { IfOk result (λ file. CanCount (Self.File.source file)) };

    /// Whether the file of that name is a regular file, whose reads don't wait for anybody.
    fn is_regular(&self, _name: &str) -> bool {
        false
    }

    /// Creates the file of that name, or truncates it if it is there.
    ///
    /// # Errors
    ///
    /// The system's reason why it cannot be created.
    fn create(&self, name: &str) -> io::Result<Self::Made>
        ensures counts { IfOk result (λ file. CanCount (Self.Made.sink file)) };
}

/// The files of the system. Which bytes they give nobody knows.
#[derive(Drop)]
pub struct SystemFiles<'a> {
    rt: &'a HostRuntime,
}

impl<'a> SystemFiles<'a> {
    /// The files of that system.
    pub fn new(rt: &'a HostRuntime) -> SystemFiles<'a> {
        SystemFiles { rt }
    }
}

impl Files for SystemFiles<'_> {
    type File = FailureCounted<File>;

    type Made = FailureCounted<File>;

    ghost opens = { λ _ _ _ _. ⊤ };

    fn open(&mut self, name: &str) -> io::Result<FailureCounted<File>> {
        let file = fs::open(self.rt, name)?;
        Ok(FailureCounted::with_descriptor(file))
    }

    fn is_regular(&self, name: &str) -> bool {
        match fs::metadata(self.rt, name) {
            Ok(about) => about.is_file(),
            Err(_) => false,
        }
    }

    fn create(&self, name: &str) -> io::Result<FailureCounted<File>> {
        let file = fs::create(self.rt, name)?;
        Ok(FailureCounted::new(file))
    }
}
