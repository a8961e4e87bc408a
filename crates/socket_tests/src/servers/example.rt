//! The program of docs/embedding.md: a client that fetches URLs, one after another.

use budget::Limits;
use cache::Pool;
use client::Client;
use conn_key::{CountedMemory, Sites, read_target};
use conn_log::Want;
use exchange::{Done, Job};
use persistence::Method;
use socket::{Addresses, SystemClock, WaitingDial};
use std::env;
use std::time::Duration;

/// A job for each URL, and the addresses of their sites. A site is a host and port.
fn plan(rt: &HostRuntime, urls: &[String]) -> anyhow::Result<(Vec<Job>, Addresses)> {
    let mut jobs = Vec::new(rt.alloc());
    let mut sites = Sites::new(rt.alloc())?;
    let mut addresses = Addresses::new(rt.alloc());
    for url in urls {
        let target = read_target(&mut CountedMemory::new(rt.alloc()), url.as_str())?;
        let site = sites.add(&target)?;
        // The first URL of a site: its addresses stand at the site's index.
        if site as usize == addresses.len() {
            addresses.add(&target)?;
        }
        // Any connection of the site will do, if it was idle for at most 118 seconds.
        let want = Want {
            transfer: jobs.len() as u64,
            lane: 0,
            max_age: 118,
            max_life: 0,
            fresh: false,
            forbid_reuse: false,
        };
        jobs.push(Job {
            site,
            want,
            method: Method::Get,
            target,
        })?;
    }
    Ok((jobs, addresses))
}

/// Fetches the URLs, each for 30 seconds at most, and tells how each transfer ended.
fn fetch_urls(rt: &HostRuntime, urls: &[String]) -> anyhow::Result<Vec<Done>> {
    let (jobs, addresses) = plan(rt, urls)?;
    // At most six connections are open to a site, twenty to all, and four are kept idle.
    let limits = Limits::new(6, 20, 4)?;
    let pool = Pool::new(rt.alloc(), limits, u32::try_from(addresses.len())?)?;
    let dial = WaitingDial::new(rt, rt.alloc(), addresses)?;
    let mut client = Client::new(rt, rt.alloc(), pool, dial, SystemClock::new(rt)?)?;
    let mut ends = Vec::new(rt.alloc());
    for job in &jobs {
        ends.push(client.fetch(job, Duration::from_secs(30)).done)?;
    }
    Ok(ends)
}

fn main(rt: HostRuntime) -> anyhow::Result<()> {
    let urls: Vec<String> = env::args(&rt)?.skip(1).collect(rt.alloc())?;
    let ends = fetch_urls(&rt, &urls)?;
    for (url, end) in urls.iter().zip(ends.iter()) {
        match end {
            Done::Good(it) => println!(rt; "{} {} {} {url}", it.status, it.body_len, it.reused)?,
            Done::Bad(fault) => println!(rt; "{fault:?} {url}")?,
        }
    }
    Ok(())
}

mod tests {
    use super::fetch_urls;
    use crate::servers::beside::beside;
    use exchange::Done;
    use loopback_server::Server;
    use std::alloc::AllocGlobal;
    use std::io;
    use std::test::Fail;

    /// Whether each URL of the test is fetched over a connection that was used before.
    const REUSED: [bool; 3] = [false, true, false];

    #[test]
    fn the_second_request_to_a_site_reuses_its_connection(rt: HostRuntime) -> Result<(), Fail> {
        let server = Server::listen(&rt, rt.alloc(), 2)?;
        let (port, other) = (server.ports()[0], server.ports()[1]);
        let urls = [
            format!(in rt.alloc(); "http://127.0.0.1:{port}/a")?,
            format!(in rt.alloc(); "http://127.0.0.1:{port}/b?c")?,
            format!(in rt.alloc(); "http://127.0.0.1:{other}/a")?,
        ];
        let ends = beside(&rt, server, || -> io::Result<anyhow::Result<Vec<Done>>> {
            Ok(fetch_urls(&rt, &urls))
        })??;
        assert_eq!(rt; ends.len(), 3);
        for (end, &reused) in ends.iter().zip(REUSED.iter()) {
            let Done::Good(answer) = end else {
                panic!(rt; "no response: {end:?}");
            };
            let seen = (answer.status, answer.body_len, answer.reused);
            assert_eq!(rt; seen, (200, 2, reused));
        }
        Ok(())
    }
}
