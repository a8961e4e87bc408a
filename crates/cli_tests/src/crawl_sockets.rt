//! Gets and crawls over sockets of the system, of a server beside them.

use crate::checks::check_eq;
use crate::networks::FakeNames;
use crate::running::words_of;
use cli::{System, SystemNetwork, run_program};
use client::LookUps;
use command_line::CountedArgsAlloc;
use commands::CrawlOptions;
use crawl::{Network, NetworkFault};
use load_run::LoadFault;
use loopback_server::Server;
use std::alloc::{AllocError, AllocGlobal, Global};
use std::fmt::Write;
use std::net::{IpAddr, Ipv4Addr, SocketAddr, TcpListener};
use std::process::Abort;
use std::random::RandomSource;
use std::sync::Wait;
use std::sync::atomic::{AtomicBool, Ordering};
use std::thread::{Builder, Threads, scope_env};
use std::{io, str, thread};
use streams::SystemFiles;

/// How many URLs there are.
const URLS: u64 = 60;

/// How many transfers are under way at once.
const PARALLEL: u64 = 8;

// A file of URLs, by turns of these two ports; each has a path of its own.
fn file_of(alloc: Global, ports: &[u16]) -> Result<String, AllocError> {
    let mut file = String::new(alloc);
    for number in 0..URLS {
        let place = if number % 2 == 0 { 0 } else { 1 };
        let port = ports.get(place).copied().unwrap_or(0);
        let written = writeln!(file, "http://127.0.0.1:{port}/{number}");
        if written.is_err() {
            return Err(AllocError);
        }
    }
    Ok(file)
}

// The network of the system, but for its names.
#[derive(Drop)]
struct NamedNetwork<'s, 'a: 's, H: Wait + RandomSource + AllocGlobal> {
    network: SystemNetwork<'s, 'a, H>,
    names: FakeNames,
}

impl<'s, 'a: 's, H: Wait + RandomSource + AllocGlobal> Network for NamedNetwork<'s, 'a, H> {
    type Crawler = <SystemNetwork<'s, 'a, H> as Network>::Crawler;

    type Names = FakeNames;

    fn open(
        &self,
        alloc: Global,
        options: CrawlOptions,
        hosts: u32,
    ) -> Result<Self::Crawler, NetworkFault> {
        self.network.open(alloc, options, hosts)
    }

    fn names(&self) -> &FakeNames {
        &self.names
    }
}

// What a get with these words, and that standard input, writes, its status, and how many names it
// looks up.
fn get<H: RandomSource + AllocGlobal + Wait>(
    waits: &H,
    system: &HostRuntime,
    words: &str,
    input: &str,
) -> io::Result<(u8, Vec<u8>, u32)> {
    let alloc = system.alloc();
    let words = words_of(alloc, words)?;
    let look_ups = LookUps::new(waits, alloc);
    let mut memory = CountedArgsAlloc::new(alloc);
    let network = NamedNetwork {
        network: SystemNetwork::new(system, waits, &look_ups, false),
        names: FakeNames::new(alloc),
    };
    let mut program = System {
        files: SystemFiles::new(system),
        network,
        input: input.as_bytes(),
        is_typed: false,
        output: Vec::new(alloc),
        errors: Vec::new(alloc),
    };
    let load = |_, _| Err(LoadFault::Listen.into());
    let status = run_program(alloc, &mut memory, words, load, &mut program);
    let System {
        network,
        output,
        ..
    } = program;
    Ok((status, output, network.names.lookups.load(Ordering::SeqCst)))
}

// What the client returns, beside which the server serves on a thread of its own.
fn beside<R: Threads + Wait + Sync, T: Drop, F: FnOnce() -> io::Result<T>>(
    rt: &R,
    server: Server,
    client: F,
) -> io::Result<T>
    requires { F.pre client }
{
    let ended = AtomicBool::new(false);
    thread::scope(
        scope_env(),
        rt,
        |scope| -> io::Result<T>
            requires { F.pre client }
        {
            let serving = Builder::new().spawn_scoped(scope, || server.serve(rt, &ended))?;
            let got = client();
            ended.store(true, Ordering::SeqCst);
            let _requests = serving.join(rt)?;
            got
        },
    )
}

// Whether a text has the line of that URL, with this before it.
fn has_line(rt: &impl Abort, alloc: Global, text: &str, before: &str, url: &str) -> bool {
    let line = format!(in alloc; "{before} {url}\n").expect(rt, "memory");
    text.contains(line.as_str())
}

#[test]
fn each_url_of_a_file_has_its_line(rt: HostRuntime) {
    let server = Server::listen(&rt, rt.alloc(), 2).expect(&rt, "memory");
    let file = file_of(rt.alloc(), server.ports()).expect(&rt, "memory");
    let (status, output, lookups) = beside(&rt, server, || {
        get(&rt, &rt, "get --file - --parallel 8", file.as_str())
    })
    .expect(&rt, "memory");
    check_eq(&rt, (status, lookups), (0, 0));
    let text = str::from_utf8(output.as_slice()).unwrap_or("");
    let mut opened: u64 = 0;
    for url in file.as_str().lines() {
        let is_new = has_line(&rt, rt.alloc(), text, "200 2 new", url);
        let is_reused = has_line(&rt, rt.alloc(), text, "200 2 reused", url);
        assert!(rt; is_new != is_reused, "{url}");
        opened = opened.saturating_add(is_new as u64);
    }
    check_eq(&rt, text.lines().count() as u64, URLS);
    assert!(rt; opened <= 2 * PARALLEL);
}

/// How `get` fetches the URLs of a file, and of the words.
static WAYS: [(&str, bool); 3] = [
    ("get", false),
    ("get --parallel 1", false),
    ("get --parallel 4 --file -", true),
];

// URLs at these two ports, a line each: of two names that the system knows, of one that it does not
// know, and of an address.
fn urls_at(alloc: Global, ports: &[u16]) -> Result<String, AllocError> {
    let (port, other) = match ports {
        [port, other, ..] => (*port, *other),
        _ => (0, 0),
    };
    format!(in alloc;
        "http://a.test:{port}/1\nhttp://gone.test:{port}/2\nhttp://a.test:{other}/3\n\
         http://127.0.0.1:{port}/4\nhttp://b.test:{other}/5"
    )
}

// The words that fetch these URLs that way, and the standard input.
fn asked(
    alloc: Global,
    way: &str,
    is_file: bool,
    urls: &str,
) -> Result<(String, String), AllocError> {
    if is_file {
        let input = String::from_str(alloc, urls)?;
        return Ok((String::from_str(alloc, way)?, input));
    }
    let urls = urls.replace(alloc, "\n", " ")?;
    let words = format!(in alloc; "{way} {urls}")?;
    Ok((words, String::new(alloc)))
}

// Each URL was fetched over a connection of its own, but those of the name that is not known.
fn check_fetched(rt: &impl Abort, alloc: Global, output: &[u8], urls: &str) {
    let text = str::from_utf8(output).unwrap_or("");
    for url in urls.lines() {
        let is_unknown = url.contains("gone");
        let failed = has_line(rt, alloc, text, "Dial", url);
        let fetched = has_line(rt, alloc, text, "200 2 new", url);
        check_eq(rt, (failed, fetched), (is_unknown, !is_unknown));
    }
}

// The server listens on 127.0.0.1 alone, which is the second address of each name.
#[test]
fn a_name_leads_to_its_addresses(rt: HostRuntime) {
    for (way, is_file) in &WAYS {
        let server = Server::listen(&rt, rt.alloc(), 2).expect(&rt, "memory");
        let urls = urls_at(rt.alloc(), server.ports()).expect(&rt, "memory");
        let urls = urls.as_str();
        let (words, input) = asked(rt.alloc(), way, *is_file, urls).expect(&rt, "memory");
        let got = beside(
            &rt,
            server,
            || get(&rt, &rt, words.as_str(), input.as_str()),
        );
        let (status, output, lookups) = got.expect(&rt, "memory");
        assert_eq!(rt; (status, lookups), (4, 3), "{way}");
        check_fetched(&rt, rt.alloc(), &output, urls);
    }
}

/// Hosts of which none answers at a port without a listener, and the reason of each.
static UNANSWERED: [(&str, &str); 4] = [
    ("127.0.0.1", "refused"),
    ("localhost", "refused"),
    ("a.test", "refused"),
    ("gone.test", "unknown host"),
];

#[test]
fn a_json_line_tells_why_nobody_answers(rt: HostRuntime) {
    let any_port = SocketAddr::new(IpAddr::V4(Ipv4Addr::LOCALHOST), 0);
    let listener = TcpListener::bind(&rt, any_port).expect(&rt, "memory");
    let port = listener.local_addr().expect(&rt, "memory").port();
    drop(listener);
    for row in &UNANSWERED {
        let (host, reason) = *row;
        let alloc = rt.alloc();
        let words = format!(in alloc; "get --json http://{host}:{port}/").expect(&rt, "memory");
        let told = format!(in alloc; "\"fault\": \"Dial\", \"reason\": \"{reason}\", ").expect(
            &rt, "memory",
        );
        let (status, output, _) = get(&rt, &rt, words.as_str(), "").expect(&rt, "memory");
        let text = str::from_utf8(output.as_slice()).unwrap_or("");
        assert_eq!(rt; status, 4, "{host}");
        assert!(rt; text.contains(told.as_str()), "{host}: {text}");
    }
}
