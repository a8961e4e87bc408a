//! Writes the trace of a load, each time that its logs are cut.

ghost use Rattle.std.specs.Prelude.{◌≡◌, ◌++◌, List, length, reverse, string_bytes};
ghost use Rattle.std.specs.Prelude.{IfOk, OnOk};
ghost use Rattle.conn_log.specs.declared.entry.Entry.{Entry};
ghost use Rattle.streams.specs.Streams.{CanCount, SameFailures};
ghost use Rattle.load_run.specs.LoadSites.{site_lines};
ghost use Rattle.load_run.specs.LoadTraces.{AddsPart, AreNewHosts, GoesOn, IfOpen, WritesTrace};
ghost use Rattle.load_run.specs.LoadTraces.{fault_of, first_lines};
ghost use Rattle.trace_text.specs.HostLines.{part_lines};
ghost use Rattle.trace_text.specs.HostUses.{AreUsesOf};

use crate::load::failure::LoadFailure;
use crate::load::fault::{LoadFault, OUT_OF_MEMORY};
use crate::load::files::{OutputFile, unwritten};
use crate::load::sites::LoadSites;
use commands::LoadOptions;
use conn_log::Entry;
use std::alloc::{AllocError, Global};
use std::fs::File;
use streams::{FailureCounted, Sink, StreamFault};
use trace_text::{HostTrace, add_limits};

/// The trace of a load, or the reason why it ends early.
#[derive(Drop)]
pub(crate) enum LoadTrace<'a> {
    Open(OpenTrace<'a>),
    Failed(LoadFailure),
}

/// A trace whose writes have all succeeded.
#[derive(Drop)]
pub(crate) struct OpenTrace<'a> {
    alloc: Global,
    output: OutputFile<'a>,
    /// The trace of each site, by its index.
    hosts: Vec<HostTrace>,
}

impl<'a> LoadTrace<'a> {
    /// Begins a trace with its limits and its sites.
    pub(crate) fn begin(
        alloc: Global,
        options: LoadOptions,
        sites: &LoadSites<'_>,
        output: OutputFile<'a>,
    ) -> LoadTrace<'a> {
        let Ok(hosts) = host_traces(alloc, sites.count) else {
            return LoadTrace::Failed(OUT_OF_MEMORY.into());
        };
        let OutputFile { name, mut file } = output;
        match write_head(alloc, options, sites, &mut file) {
            Ok(()) => LoadTrace::Open(OpenTrace {
                alloc,
                output: OutputFile { name, file },
                hosts,
            }),
            Err(fault) => LoadTrace::Failed(failure_of(alloc, name, &file, fault)),
        }
    }

    /// Writes the next entries of a site's log, oldest entry first, and returns the trace.
    pub(crate) fn with_part(self, site: u32, entries: &[Entry]) -> LoadTrace<'a>
        ensures { GoesOn site entries.now self.entry result }
    {
        match self {
            LoadTrace::Open(open) => open.with_part(site, entries),
            LoadTrace::Failed(failure) => LoadTrace::Failed(failure),
        }
    }

    /// Writes the last entries of each site's log, and ends the trace.
    ///
    /// # Errors
    ///
    /// The reason why the trace was not written whole.
    pub(crate) fn end(self, logs: &[Vec<Entry>]) -> Result<(), LoadFailure> {
        let mut trace = self;
        for (site, log) in logs.iter().enumerate() {
            let site = u32::try_from(site).unwrap_or(u32::MAX);
            trace = trace.with_part(site, log);
        }
        match trace {
            LoadTrace::Open(_) => Ok(()),
            LoadTrace::Failed(failure) => Err(failure),
        }
    }
}

impl<'a> OpenTrace<'a> {
    // Writes the next entries of a site's log, and returns the trace.
    fn with_part(self, site: u32, entries: &[Entry]) -> LoadTrace<'a>
        ensures { IfOpen result (λ trace.
            AddsPart site entries.now self.entry.hosts.items trace.hosts.items) }
    {
        let OpenTrace {
            alloc,
            output,
            mut hosts,
        } = self;
        let OutputFile { name, mut file } = output;
        let index = site as usize;
        if index >= hosts.len() {
            return LoadTrace::Failed(LoadFault::Write.into());
        }
        match write_part(alloc, &mut hosts[index], entries, &mut file) {
            Ok(()) => LoadTrace::Open(OpenTrace {
                alloc,
                output: OutputFile { name, file },
                hosts,
            }),
            Err(fault) => LoadTrace::Failed(failure_of(alloc, name, &file, fault)),
        }
    }
}

// Returns the failure of a load whose trace could not be written, by its fault.
fn failure_of(
    alloc: Global,
    name: &str,
    file: &FailureCounted<File>,
    fault: LoadFault,
) -> LoadFailure {
    match fault {
        LoadFault::Write => unwritten(alloc, name, file.last_error()),
        fault => fault.into(),
    }
}

// Returns the traces of `count` hosts without entries.
fn host_traces(alloc: Global, count: u32) -> Result<Vec<HostTrace>, AllocError>
    ensures { IfOk result (λ hosts. AreNewHosts 0 hosts.items × (length hosts.items ≡ count)) }
{
    let mut hosts = Vec::new(alloc);
    for host in 0..count {
        hosts.push(HostTrace::new(alloc, host))?;
    }
    Ok(hosts)
}

// Writes the limits of a load and its sites.
fn write_head<W: Sink>(
    alloc: Global,
    options: LoadOptions,
    sites: &LoadSites<'_>,
    output: &mut W,
) -> Result<(), LoadFault>
    requires output { CanCount (W.sink output.old) }
    ensures { WritesTrace (first_lines options
        ++ site_lines sites.now.sites.items) (W.sink output.old) (W.sink output.new) result }
{
    let mut text = String::new(alloc);
    let Ok(()) = add_head(&mut text, options, sites) else {
        return Err(OUT_OF_MEMORY);
    };
    put(output, text.as_str())
}

// Adds the limits of a load and its sites.
fn add_head(
    text: &mut String,
    options: LoadOptions,
    sites: &LoadSites<'_>,
) -> Result<(), AllocError>
    ensures { OnOk result (string_bytes text.new ≡ string_bytes text.old
        ++ (first_lines options ++ site_lines sites.now.sites.items)) }
{
    let LoadOptions {
        host_limit,
        total,
        connects,
        ..
    } = options;
    add_limits(text, host_limit, total, connects)?;
    sites.add_lines(text)
}

// Writes the next entries of a host's log.
fn write_part<W: Sink>(
    alloc: Global,
    host: &mut HostTrace,
    entries: &[Entry],
    output: &mut W,
) -> Result<(), LoadFault>
    requires output { CanCount (W.sink output.old) }
    ensures lines { (before : List Entry) → AreUsesOf before host.old.uses
        → WritesTrace (part_lines host.old.host before entries.now) (W.sink output.old)
        (W.sink output.new) result }
    ensures uses { (before : List Entry) → AreUsesOf before host.old.uses
        → OnOk result (AreUsesOf (reverse entries.now ++ before) host.new.uses) }
    ensures host { host.new.host ≡ host.old.host }
    ensures sound { OnOk result (SameFailures (W.sink output.old) (W.sink output.new)) }
{
    let mut text = String::new(alloc);
    let Ok(()) = host.add_part(alloc, &mut text, entries) else {
        return Err(OUT_OF_MEMORY);
    };
    put(output, text.as_str())
}

// Writes a text of the trace.
fn put<W: Sink>(output: &mut W, text: &str) -> Result<(), LoadFault>
    requires output { CanCount (W.sink output.old) }
    ensures { WritesTrace text.now (W.sink output.old) (W.sink output.new) result }
{
    match output.put(text.as_bytes()) {
        Ok(()) => Ok(()),
        Err(kind) => Err(fault_of(kind)),
    }
}

// Returns the load's fault if its trace could not be written.
fn fault_of(kind: StreamFault) -> LoadFault
    ensures { result ≡ fault_of kind }
{
    match kind {
        StreamFault::Memory => OUT_OF_MEMORY,
        _ => LoadFault::Write,
    }
}
