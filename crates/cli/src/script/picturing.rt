//! Draws the picture of a script, and writes it.

ghost use Rattle.streams.specs.Streams.{CanCount};

use conn_key::{Site, Sites};
use conn_log::{Entry, Log};
use script_engine::{Engine, Viewer};
use script_picture::{PicturedHost, picture_of};
use std::alloc::{AllocError, Global};
use std::fmt::Write;
use streams::{Sink, StreamFault};

/// The port of `http`, which a URL leaves out.
const HTTP_PORT: u16 = 80;

/// Draws what a script did.
#[derive(Drop)]
pub(crate) struct Painter {
    alloc: Global,
    /// What was drawn, or that there was no memory for it; none before the script's end.
    picture: Option<Result<String, AllocError>>,
}

impl Painter {
    /// Nothing is drawn yet.
    pub(crate) fn new(alloc: Global) -> Painter {
        Painter {
            alloc,
            picture: None,
        }
    }

    /// Writes what was drawn. Nothing is written of a script that did not begin.
    ///
    /// # Errors
    ///
    /// `Memory`: there was none to draw it, or there is none to write it. `Write`: it could not be
    /// written.
    pub(crate) fn write_to<W: Sink>(self, file: &mut W) -> Result<(), StreamFault>
        requires { CanCount (W.sink file.old) }
    {
        match self.picture {
            None => Ok(()),
            Some(Ok(picture)) => file.put(picture.as_bytes()),
            Some(Err(_)) => Err(StreamFault::Memory),
        }
    }
}

impl Viewer for Painter {
    fn see(&mut self, engine: &Engine) {
        self.picture = Some(drawn(self.alloc, engine));
    }
}

// The picture of what a script's commands came to.
fn drawn(alloc: Global, engine: &Engine) -> Result<String, AllocError> {
    let names = names_of(alloc, engine.sites())?;
    let mut hosts = Vec::new(alloc);
    for (site, name) in names.iter().enumerate() {
        hosts.push(PicturedHost {
            site: name.as_str(),
            log: log_of(engine, site),
        })?;
    }
    picture_of(alloc, engine.limits(), hosts.as_slice())
}

// The URL of each site.
fn names_of(alloc: Global, sites: &Sites) -> Result<Vec<String>, AllocError> {
    let mut names = Vec::new(alloc);
    for index in 0..sites.len() {
        let Ok(index) = u32::try_from(index) else {
            return Ok(names);
        };
        if let Some(site) = sites.get(index) {
            names.push(url_of(alloc, site)?)?;
        }
    }
    Ok(names)
}

// The URL of a site.
fn url_of(alloc: Global, site: &Site) -> Result<String, AllocError> {
    let (host, port) = (site.host(), site.port());
    let mut url = String::new(alloc);
    if port == HTTP_PORT {
        write!(url, "http://{host}/")?;
    } else {
        write!(url, "http://{host}:{port}/")?;
    }
    Ok(url)
}

// The log of a site's host, oldest entry first; empty if the host was not made.
fn log_of(engine: &Engine, site: usize) -> &[Entry] {
    let Ok(site) = u32::try_from(site) else {
        return &[];
    };
    match engine.log(site) {
        Some(log) => entries_of(log),
        None => &[],
    }
}

// The entries of a log, oldest first.
fn entries_of(log: &Log) -> &[Entry] {
    // For the proof: no more entries were cut away than there were.
    let _left = log.len();
    log.since(0)
}
