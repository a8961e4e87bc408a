//! The lines of a script before its first command of a host: they set the limits and name the
//! sites.

use budget::Limits;
use conn_key::{CountedMemory, Sites, SitesFault};
use script_text::{Command, FaultKind, ScriptFault, SiteWord, read_line};
use std::alloc::Global;
use streams::first_line;

/// Maximum number of lines of a script, which is that of its bytes.
pub(super) const MOST_LINES: u32 = 1_048_576;

/// The contents of these lines.
#[derive(Drop)]
pub(super) struct Head<'a> {
    /// Limits, if they are given.
    pub limits: Option<Limits>,
    /// Number of sites.
    pub sites: u32,
    /// Number of these lines.
    pub lines: u32,
    /// The rest of the script.
    pub rest: &'a [u8],
}

/// Reads these lines of a script.
pub(super) fn read_head(alloc: Global, script: &[u8]) -> Result<Head<'_>, ScriptFault> {
    let mut heading = match Heading::new(alloc) {
        Ok(heading) => heading,
        Err(kind) => return Err(ScriptFault { line: 0, kind }),
    };
    let mut lines = 0;
    let mut rest = script;
    for index in 0..MOST_LINES {
        lines = index;
        if rest.is_empty() {
            break;
        }
        let (line, others) = first_line(rest);
        match heading.takes(alloc, line) {
            Ok(true) => rest = others,
            Ok(false) => break,
            Err(kind) => return Err(ScriptFault {
                line: index + 1,
                kind,
            }),
        }
    }
    Ok(Head {
        limits: heading.limits,
        sites: heading.sites.len() as u32,
        lines,
        rest,
    })
}

/// The contents of the lines so far.
#[derive(Drop)]
struct Heading {
    limits: Option<Limits>,
    sites: Sites,
}

impl Heading {
    /// Makes an empty one. The only fault is `Memory`.
    fn new(alloc: Global) -> Result<Heading, FaultKind> {
        match Sites::new(alloc) {
            Ok(sites) => Ok(Heading {
                limits: None,
                sites,
            }),
            Err(_) => Err(FaultKind::Memory),
        }
    }

    /// Takes a line, and returns true, unless it is a command of a host.
    fn takes(&mut self, alloc: Global, line: &[u8]) -> Result<bool, FaultKind> {
        match read_line(line)? {
            None => Ok(true),
            Some(Command::Limits(limits)) => {
                self.set_limits(limits.host, limits.total, limits.kept)?;
                Ok(true)
            }
            Some(Command::Site(word)) => {
                self.add_site(alloc, &word)?;
                Ok(true)
            }
            Some(_) => self.ends(),
        }
    }

    /// Takes `limits`: once, before all others.
    fn set_limits(&mut self, host: u32, total: u32, kept: u32) -> Result<(), FaultKind> {
        if self.limits.is_some() {
            return Err(FaultKind::Place);
        }
        match Limits::new(host, total, kept) {
            Ok(limits) => {
                self.limits = Some(limits);
                Ok(())
            }
            Err(_) => Err(FaultKind::BadLimits),
        }
    }

    /// Takes `site`: after the limits.
    fn add_site(&mut self, alloc: Global, word: &SiteWord<'_>) -> Result<(), FaultKind> {
        if self.limits.is_none() {
            return Err(FaultKind::Place);
        }
        let target = word.target(&mut CountedMemory::new(alloc))?;
        match self.sites.add(&target) {
            Ok(_) => Ok(()),
            Err(SitesFault::TooMany) => Err(FaultKind::TooManySites),
            Err(SitesFault::Memory) => Err(FaultKind::Memory),
        }
    }

    /// Refuses any other line before the limits. It is not taken.
    fn ends(&self) -> Result<bool, FaultKind> {
        if self.limits.is_some() {
            Ok(false)
        } else {
            Err(FaultKind::Place)
        }
    }
}
