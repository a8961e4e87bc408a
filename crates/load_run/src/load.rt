//! A load as its plan says: its sites, its run, its report and its files.

pub(crate) mod failure;
pub(crate) mod fault;
pub(crate) mod files;
pub(crate) mod interrupt;
pub(crate) mod outcome;
pub(crate) mod own_server;
pub(crate) mod progress;
pub(crate) mod report;
pub(crate) mod running;
pub(crate) mod sites;
pub(crate) mod system;
pub(crate) mod tracing;
pub(crate) mod watch;
