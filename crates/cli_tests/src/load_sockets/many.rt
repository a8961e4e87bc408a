//! Loads with many jobs at once over polled sockets, beside a server that counts requests.

use crate::checks::check_eq;
use budget::Limits;
use conn_key::Target;
use conn_log::Want;
use exchange::Job;
use load_report::totals;
use load_run::{LoadTimes, LoadedMany, ManyPlan, Rate, Unwatched, load_many};
use loopback_server::Server;
use persistence::Method;
use socket::Addresses;
use std::alloc::{AllocError, AllocGlobal, Global};
use std::net::{IpAddr, Ipv4Addr, SocketAddr, TcpListener};
use std::process::Abort;
use std::random::RandomSource;
use std::sync::Wait;
use std::sync::atomic::{AtomicBool, Ordering};
use std::thread::{Builder, Threads, scope_env};
use std::{io, thread};

/// A load, what it counts, and how long it takes.
#[derive(Clone, Copy, Debug)]
struct Row {
    sites: u32,
    /// Number of hosts of each site in the cache.
    each: u32,
    workers: u32,
    connections: u32,
    /// Maximum number of open connections; 0 means no limit.
    total: u32,
    jobs: Option<u64>,
    /// For how many seconds after the warm-up, of how many seconds.
    seconds: Option<u32>,
    warmup: u32,
    /// How many jobs are due in a second; 0 without a rate.
    rate: u32,
    timeout: Option<u32>,
    /// How many requests there are at least and at most.
    requests: (u64, u64),
    /// How many milliseconds it takes at least.
    millis: u64,
}

/// Of one site, without limits of time.
const UNTIMED: Row = Row {
    sites: 1,
    each: 1,
    workers: 2,
    connections: 4,
    total: 0,
    jobs: None,
    seconds: None,
    warmup: 0,
    rate: 0,
    timeout: None,
    requests: (0, 0),
    millis: 0,
};

// A request for the path / of the site that listens at that port.
fn url_at(alloc: Global, site: u32, port: u16) -> Result<Job, AllocError> {
    Ok(Job {
        site,
        want: Want::of(0),
        method: Method::Get,
        target: Target {
            host: String::from_str(alloc, "127.0.0.1")?,
            port,
            path: String::from_str(alloc, "/")?,
        },
    })
}

// The URLs of the sites at these ports.
fn urls_at(alloc: Global, ports: &[u16]) -> Result<Vec<Job>, AllocError> {
    let mut urls = Vec::new(alloc);
    for (site, port) in ports.iter().enumerate() {
        let site = u32::try_from(site).unwrap_or(u32::MAX);
        let url = url_at(alloc, site, *port)?;
        urls.push(url)?;
    }
    Ok(urls)
}

// Returns the addresses of `each` hosts for each of these ports, for `workers` threads.
fn addresses_at(
    alloc: Global,
    ports: &[u16],
    workers: u32,
    each: u32,
) -> Result<Vec<Addresses>, AllocError> {
    let mut all = Vec::new(alloc);
    for _ in 0..workers {
        let mut addresses = Addresses::new(alloc);
        for port in ports {
            add_hosts(alloc, &mut addresses, *port, each)?;
        }
        all.push(addresses)?;
    }
    Ok(all)
}

// Adds `each` hosts at that port.
fn add_hosts(
    alloc: Global,
    addresses: &mut Addresses,
    port: u16,
    each: u32,
) -> Result<(), AllocError> {
    let place = SocketAddr::new(IpAddr::V4(Ipv4Addr::LOCALHOST), port);
    for _ in 0..each {
        let one = vec![in alloc; place; 1]?;
        addresses.add_resolved(one)?;
    }
    Ok(())
}

// Carries out the load at these ports.
fn load_at<R: Threads + Wait + RandomSource + AllocGlobal + Sync + Abort>(
    rt: &R,
    system: &HostRuntime,
    ports: &[u16],
    row: &Row,
) -> io::Result<LoadedMany> {
    let alloc = rt.alloc();
    let urls = urls_at(alloc, ports)?;
    let plan = ManyPlan {
        limits: Limits::new(0, row.total, 1_000).expect(rt, "limits"),
        sites: u32::try_from(ports.len()).unwrap_or(u32::MAX),
        each: row.each,
        addresses: addresses_at(alloc, ports, row.workers, row.each)?,
        urls: &urls,
        jobs: row.jobs,
        connections: row.connections,
        times: LoadTimes {
            seconds: row.seconds,
            warmup: row.warmup,
            rate: Rate::new(row.rate),
            timeout: row.timeout,
        },
        fails_statuses: false,
    };
    match load_many(rt, system, alloc, plan, &Unwatched) {
        Ok(loaded) => Ok(loaded),
        Err(error) => panic!(rt; "{row:?}: {error:?}"),
    }
}

// Returns the number of requests at all sites.
fn sum_of(requests: &[u64]) -> u64 {
    let mut sum = 0u64;
    for count in requests {
        sum = sum.saturating_add(*count);
    }
    sum
}

// Returns the number of jobs at a site. Job K is at site K modulo the number of sites.
fn share_of(jobs: u64, sites: u32, site: u64) -> u64 {
    let sites = sites as u64;
    jobs.saturating_add(sites)
        .saturating_sub(site.saturating_add(1))
        / sites.max(1)
}

// Runs a load of a server in this process. Returns its result and the number of requests at each
// site.
fn load_served<R: Threads + Wait + RandomSource + AllocGlobal + Sync + Abort>(
    rt: &R,
    system: &HostRuntime,
    row: &Row,
) -> io::Result<(LoadedMany, Vec<u64>)> {
    let server = Server::listen(system, rt.alloc(), row.sites)?;
    let mut ports = Vec::new(rt.alloc());
    ports.extend_from_slice(server.ports())?;
    let ended = AtomicBool::new(false);
    thread::scope(
        scope_env(),
        rt,
        |scope| -> io::Result<(LoadedMany, Vec<u64>)> {
            let serving = Builder::new().spawn_scoped(scope, || server.serve(rt, &ended))?;
            let loaded = load_at(rt, system, &ports, row);
            ended.store(true, Ordering::SeqCst);
            let requests = serving.join(rt)?;
            Ok((loaded?, requests))
        },
    )
}

/// Loads of the server.
static ROWS: [Row; 7] = [
    Row {
        sites: 8,
        workers: 8,
        connections: 8,
        total: 3,
        jobs: Some(203),
        requests: (203, 203),
        ..UNTIMED
    },
    Row {
        sites: 2,
        workers: 3,
        connections: 3,
        total: 1,
        jobs: Some(30),
        requests: (30, 30),
        ..UNTIMED
    },
    Row {
        sites: 2,
        connections: 8,
        jobs: Some(1_000),
        requests: (1_000, 1_000),
        ..UNTIMED
    },
    // A host for each worker.
    Row {
        sites: 3,
        each: 2,
        connections: 8,
        jobs: Some(300),
        requests: (300, 300),
        ..UNTIMED
    },
    // More workers than places.
    Row {
        workers: 4,
        connections: 1,
        jobs: Some(100),
        requests: (100, 100),
        ..UNTIMED
    },
    Row {
        seconds: Some(1),
        requests: (1, u64::MAX),
        millis: 1_000,
        ..UNTIMED
    },
    Row {
        jobs: Some(20),
        timeout: Some(5),
        requests: (20, 20),
        ..UNTIMED
    },
];

#[test]
fn figures_and_account_are_those_of_the_server(rt: HostRuntime) {
    for row in &ROWS {
        let (loaded, requests) = load_served(&rt, &rt, row).expect(&rt, "memory");
        let served = sum_of(&requests);
        let all = loaded.figures.all();
        let (good, stopped) = (all.good, all.stopped);
        let (least, most) = row.requests;
        assert!(rt; least <= good && good <= most, "{row:?}: {good}");
        assert!(rt;
            all.failed == 0 && all.bytes == good.saturating_mul(2),
            "{row:?}"
        );
        let sent = good.saturating_add(stopped).saturating_add(all.retried);
        assert!(rt;
            good <= served && served <= sent,
            "{row:?}: {good} {served} {sent}"
        );
        let millis = loaded.elapsed / 1_000;
        assert!(rt; row.millis <= millis, "{row:?}: {millis}");
        let hosts = row.sites.saturating_mul(row.each) as usize;
        check_eq(
            &rt,
            (loaded.gathered.hosts.len(), loaded.hosts.len()),
            (hosts, row.sites as usize),
        );
        check_eq(&rt, totals(&loaded.hosts), totals(&loaded.gathered.hosts));
    }
}

// Each of two workers has one place, so it has at most one connection at a time at its own host.
#[test]
fn no_worker_uses_the_host_of_another(rt: HostRuntime) {
    let row = Row {
        each: 2,
        connections: 2,
        jobs: Some(500),
        ..UNTIMED
    };
    let (loaded, _requests) = load_served(&rt, &rt, &row).expect(&rt, "memory");
    for host in &loaded.gathered.hosts {
        assert!(rt; host.alive <= 1, "{host:?}");
    }
}

#[test]
fn each_site_gets_the_requests_of_its_jobs(rt: HostRuntime) {
    for row in &ROWS {
        let Some(jobs) = row.jobs else {
            continue;
        };
        let (loaded, requests) = load_served(&rt, &rt, row).expect(&rt, "memory");
        let retried = loaded.figures.all().retried;
        for (site, count) in requests.iter().enumerate() {
            let share = share_of(jobs, row.sites, site as u64);
            let most = share.saturating_add(retried);
            assert!(rt;
                share <= *count && *count <= most,
                "{row:?}: {site}: {count}"
            );
        }
    }
}

#[test]
fn no_job_begins_before_it_is_due(rt: HostRuntime) {
    let row = Row {
        connections: 8,
        seconds: Some(2),
        warmup: 1,
        rate: 200,
        requests: (0, 402),
        ..UNTIMED
    };
    let (loaded, requests) = load_served(&rt, &rt, &row).expect(&rt, "memory");
    let served = sum_of(&requests);
    let good = loaded.figures.all().good;
    let (least, most) = row.requests;
    assert!(rt; least <= good && good <= most, "{good}");
    assert!(rt; served <= 602, "{served}");
}

#[test]
fn jobs_of_a_silent_peer_are_cancelled(rt: HostRuntime) {
    let silent = TcpListener::bind(&rt, SocketAddr::new(IpAddr::V4(Ipv4Addr::LOCALHOST), 0)).expect(
        &rt, "memory",
    );
    let port = silent.local_addr().expect(&rt, "memory").port();
    let row = Row {
        workers: 1,
        jobs: Some(8),
        timeout: Some(1),
        ..UNTIMED
    };
    let loaded = load_at(&rt, &rt, &[port], &row).expect(&rt, "memory");
    let all = loaded.figures.all();
    check_eq(&rt, (all.good, all.failed, all.stopped), (0, 8, 0));
    assert!(rt; 2_000_000 <= loaded.elapsed, "{}", loaded.elapsed);
}
