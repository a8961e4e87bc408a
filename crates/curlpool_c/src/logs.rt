//! The logs of the sites, as lines of a transcript.

ghost use Rattle.std.specs.Prelude.{◌≡◌, ◌<◌, length, IfErr, OnErr, OnOk};
ghost use Rattle.bundle.specs.Lease.{cut_refusal};
ghost use Rattle.cache.specs.Pools.{host_at};
ghost use Rattle.curlpool_c.specs.Logs.{CutsOne, CutsTold, DropsIn, DropsLogs, TakesIn};
ghost use Rattle.curlpool_c.specs.Logs.{TellsLog, stop_status};

use crate::inner::Inner;
use crate::status::{BAD_SITE, CLOSED, MORE, NO_MEMORY, OK, SMALL, refusal_status};
use budget::Refusal;
use held_pool::HeldPool;
use std::alloc::Global;
use trace_text::{Stop, write_lines};

// The status of a log that was not told to its end, of which so many bytes were written.
fn stop_status(stop: Stop, written: usize) -> u32
    ensures { result ≡ stop_status stop written }
{
    if written > 0 {
        return MORE;
    }
    match stop {
        Stop::Small => SMALL,
        Stop::Memory => NO_MEMORY,
    }
}

// Cuts a log of which all was told, up to that place: its rest is told from its beginning then.
fn cut_told(held: &mut HeldPool, site: u32, place: usize, told: &mut usize) -> u32
    requires { site < length held.old.pool.hosts }
    ensures { CutsTold held.old held.new site place told.new result }
{
    match held.cut(site) {
        Ok(_) => {
            *told = 0;
            OK
        }
        Err(refusal) => {
            *told = place;
            refusal_status(refusal)
        }
    }
}

// Tells a log from the place up to which it was told, and cuts it once all was told.
fn tell_log(
    held: &mut HeldPool,
    alloc: Global,
    site: u32,
    told: &mut usize,
    buffer: &mut [u8],
    written: &mut usize,
) -> u32
    ensures { TellsLog held.old held.new site told.old told.new result
        buffer.old buffer.new written.old written.new }
{
    let Some(log) = held.log(site) else {
        return BAD_SITE;
    };
    let lines = write_lines(alloc, site, log, *told, buffer);
    *written = lines.written;
    let Some(stop) = lines.stop else {
        return cut_told(held, site, lines.place, told);
    };
    *told = lines.place;
    stop_status(stop, lines.written)
}

// Cuts the log of a site, of which nothing is told from then on.
fn drop_log(held: &mut HeldPool, site: u32, told: &mut [usize]) -> Result<(), Refusal>
    requires { site < length held.old.pool.hosts }
    ensures ok { OnOk result (CutsOne held.old held.new site told.old told.new) }
    ensures err { IfErr result (λ reason. reason ≡ cut_refusal (host_at held.old.pool site)) }
    ensures held { OnErr result (held.new ≡ held.old) }
    ensures told { OnErr result (told.new ≡ told.old) }
{
    let _ = held.cut(site)?;
    if (site as usize) < told.len() {
        told[site as usize] = 0;
    }
    Ok(())
}

// Cuts all logs, up to one that cannot be cut.
fn drop_all(held: &mut HeldPool, told: &mut [usize]) -> u32
    ensures { DropsLogs held.old held.new told.old told.new result }
{
    for site in 0..held.hosts() {
        if let Err(refusal) = drop_log(held, site, told) {
            return refusal_status(refusal);
        }
    }
    OK
}

impl Inner {
    // Tells the log of a site.
    pub(crate) fn take_log(
        &mut self,
        alloc: Global,
        site: u32,
        buffer: &mut [u8],
        written: &mut usize,
    ) -> u32
        ensures { TakesIn self.old self.new site result
            buffer.old buffer.new written.old written.new self.old.held }
    {
        let Some(held) = &mut self.held else {
            return CLOSED;
        };
        let place = site as usize;
        if place >= self.told.len() {
            return BAD_SITE;
        }
        let mut told = self.told[place];
        let status = tell_log(held, alloc, site, &mut told, buffer, written);
        self.told[place] = told;
        status
    }

    // Cuts all logs.
    pub(crate) fn drop_logs(&mut self) -> u32
        ensures { DropsIn self.old self.new result self.old.held }
    {
        let Some(held) = &mut self.held else {
            return CLOSED;
        };
        drop_all(held, &mut self.told)
    }
}
