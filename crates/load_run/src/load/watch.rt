//! The watcher of a load on the command line.

use crate::load::failure::LoadFailure;
use crate::load::files::OutputFile;
use crate::load::progress::ProgressLine;
use crate::load::sites::LoadSites;
use crate::load::tracing::LoadTrace;
use crate::watch::{Seen, Watch};
use commands::LoadPlan;
use conn_log::Entry;
use std::alloc::Global;
use std::sync::{Mutex, Wait};

/// The watcher of a load: it shows the progress, ends the load at Ctrl-C, and writes the trace.
#[derive(Drop)]
pub(crate) struct LoadWatch<'a, R: Wait> {
    rt: &'a R,
    progress: ProgressLine<'a>,
    /// The trace, if one is written.
    trace: Mutex<Option<LoadTrace<'a>>>,
}

impl<'a, R: Wait> LoadWatch<'a, R> {
    /// Makes the watcher of a load of these sites, and begins its trace if there is a file for it.
    pub(crate) fn new(
        rt: &'a R,
        system: &'a HostRuntime,
        alloc: Global,
        plan: &LoadPlan,
        sites: &LoadSites<'_>,
        traced: Option<OutputFile<'a>>,
    ) -> LoadWatch<'a, R> {
        let is_silent = plan.is_plain || plan.flags.quiet || plan.flags.no_progress;
        let trace = match traced {
            Some(output) => Some(LoadTrace::begin(alloc, plan.options, sites, output)),
            None => None,
        };
        LoadWatch {
            rt,
            progress: ProgressLine::new(system, !is_silent),
            trace: Mutex::new(trace),
        }
    }

    /// True if Ctrl-C ended the load.
    pub(crate) fn is_interrupted(&self) -> bool {
        self.progress.is_interrupted()
    }

    /// Erases the progress.
    pub(crate) fn erase_progress(&self) {
        self.progress.erase();
    }

    /// Writes the last entries of each site's log, and ends the trace, if there is one.
    ///
    /// # Errors
    ///
    /// The reason why the trace was not written whole.
    pub(crate) fn end_trace(&self, logs: &[Vec<Entry>]) -> Result<(), LoadFailure> {
        let mut trace = self.trace.lock(self.rt);
        match trace.take() {
            Some(open) => open.end(logs),
            None => Ok(()),
        }
    }
}

impl<R: Wait> Watch for LoadWatch<'_, R> {
    ghost use Rattle.std.specs.Prelude.{⊤};

    ghost may_end = { λ watch. ⊤ };

    fn is_over(&self) -> bool {
        self.progress.is_interrupted()
    }

    fn look(&self, seen: Seen) {
        self.progress.look(seen);
    }

    fn take_log(&self, site: u32, entries: Vec<Entry>) {
        let mut trace = self.trace.lock(self.rt);
        if let Some(open) = trace.take() {
            *trace = Some(open.with_part(site, &entries));
        }
    }
}
