//! What `get` writes, and which of its words are refused.

use crate::checks::check_eq;
use crate::networks::FakeNetwork;
use crate::running::{ROW, Row, Text, check, check_stopped, check_words};
use crate::script_streams::Failing;
use command_line::Words;
use commands::{CrawlFlags, CrawlOptions, UrlFile};
use crawl::{Crawl, CrawlFault, Crawled, NetworkFault, Tally};
use persistence::Method;
use std::alloc::{AllocError, Global};
use std::sync::atomic::Ordering;
use streams::{FailureCounted, StreamFault};

// The words of a get of so many URLs.
fn many_urls(alloc: Global, count: u32) -> Result<Words, AllocError> {
    let mut all = Vec::new(alloc);
    all.push(String::from_str(alloc, "curlpool")?)?;
    all.push(String::from_str(alloc, "get")?)?;
    for _step in 0..count {
        all.push(String::from_str(alloc, "http://127.0.0.1/")?)?;
    }
    Ok(Words::Given(all))
}

/// Words, and the lines of their transfers.
static LINES: [(&str, &str); 7] = [
    (
        "get http://127.0.0.1/ http://LOCALHOST:80/ab http://localhost/again http://127.0.0.1:81/",
        "200 1 new http://127.0.0.1/\n200 3 new http://LOCALHOST:80/ab\n\
        200 6 reused retried http://localhost/again\n200 1 new http://127.0.0.1:81/\n",
    ),
    (
        "get http://[::1]/a?b#c --head http://u@[0:0::1]:80",
        "200 0 new http://[::1]/a?b#c\n200 0 reused http://u@[0:0::1]:80\n",
    ),
    (
        "get --max-age 0 http://127.0.0.1/ http://127.1/",
        "200 1 new http://127.0.0.1/\n200 1 new http://127.1/\n",
    ),
    (
        "get --max-age=00018446744073709551615 --timeout=0003600 -- http://127.0.0.1/",
        "200 1 new http://127.0.0.1/\n",
    ),
    (
        "get --timeout 1 http://localhost",
        "200 1 new http://localhost\n",
    ),
    (
        "get http://127.0.0.1/again",
        "200 6 new retried http://127.0.0.1/again\n",
    ),
    (
        "get http://127.0.0.1/\u{a0}\u{2029}\u{202f}\u{2065}\u{206a}~",
        "200 44 new http://127.0.0.1/\u{a0}\u{2029}\u{202f}\u{2065}\u{206a}~\n",
    ),
];

#[test]
fn lines_tell_of_responses(rt: HostRuntime) {
    for &(words, lines) in &LINES {
        let row = Row {
            name: words,
            words,
            output: Text::Whole(lines),
            ..ROW
        };
        let _ = check(&rt, &row);
    }
}

/// Words of two transfers of which the first has no good response, and their lines.
static FAULTS: [(&str, &str); 11] = [
    (
        "get http://127.0.0.1/memory http://127.0.0.1/",
        "Memory http://127.0.0.1/memory\n200 1 new http://127.0.0.1/\n",
    ),
    (
        "get http://127.0.0.1/dial http://127.0.0.1/",
        "Dial http://127.0.0.1/dial\n200 1 new http://127.0.0.1/\n",
    ),
    (
        "get http://127.0.0.1/read http://127.0.0.1/",
        "Read http://127.0.0.1/read\n200 1 new http://127.0.0.1/\n",
    ),
    (
        "get http://127.0.0.1/write http://127.0.0.1/",
        "Write http://127.0.0.1/write\n200 1 new http://127.0.0.1/\n",
    ),
    (
        "get http://127.0.0.1/bad http://127.0.0.1/",
        "BadResponse http://127.0.0.1/bad\n200 1 new http://127.0.0.1/\n",
    ),
    (
        "get http://127.0.0.1/cut http://127.0.0.1/",
        "Cut http://127.0.0.1/cut\n200 1 new http://127.0.0.1/\n",
    ),
    (
        "get http://127.0.0.1/refused http://127.0.0.1/",
        "Refused http://127.0.0.1/refused\n200 1 new http://127.0.0.1/\n",
    ),
    (
        "get http://127.0.0.1/cancelled http://127.0.0.1/",
        "Cancelled http://127.0.0.1/cancelled\n200 1 new http://127.0.0.1/\n",
    ),
    (
        "get http://127.0.0.1/again/dial http://127.0.0.1/",
        "Dial retried http://127.0.0.1/again/dial\n200 1 new http://127.0.0.1/\n",
    ),
    (
        "get http://127.0.0.1/again/refused http://127.0.0.1/",
        "Refused retried http://127.0.0.1/again/refused\n200 1 new http://127.0.0.1/\n",
    ),
    (
        "get http://127.0.0.1/again/cancelled http://127.0.0.1/",
        "Cancelled retried http://127.0.0.1/again/cancelled\n200 1 new http://127.0.0.1/\n",
    ),
];

#[test]
fn lines_tell_of_faults(rt: HostRuntime) {
    for &(words, lines) in &FAULTS {
        let row = Row {
            name: words,
            words,
            output: Text::Whole(lines),
            errors: Text::Whole("run: 1 of 2 failed\n"),
            status: 4,
            ..ROW
        };
        let _ = check(&rt, &row);
    }
}

#[test]
fn hosts_and_seconds_are_handed_on(rt: HostRuntime) {
    let row = Row {
        name: "three URLs of two sites",
        words: "get --timeout 7 http://127.0.0.1/ http://[::1]/ http://127.0.0.1/b",
        output: Text::Start("200 1 new http://127.0.0.1/\n"),
        ..ROW
    };
    let (network, _) = check(&rt, &row);
    check_eq(&rt, network.opened(), (1, 3, 7));
    let row = Row {
        name: "1,025 URLs",
        output: Text::Start("200 1 new http://127.0.0.1/\n"),
        ..ROW
    };
    let words = many_urls(rt.alloc(), 1_025).expect(&rt, "memory");
    let (network, _) = check_words(&rt, words, &row);
    check_eq(&rt, network.opened(), (1, 1_024, 30));
}

/// Words, the lines of their transfers, what is told of failed ones, and how many names are looked
/// up.
static NAMES: [(&str, &str, &str, u32); 7] = [
    (
        "get http://localhost/a http://127.0.0.1/b http://[::1]/c",
        "200 2 new http://localhost/a\n200 2 new http://127.0.0.1/b\n200 2 new http://[::1]/c\n",
        "",
        0,
    ),
    // a name is looked up once, whatever the port
    (
        "get http://a.test/a http://A.test:81/b http://a.test:80/c",
        "200 2 new http://a.test/a\n\
            200 2 new http://A.test:81/b\n\
            200 2 reused http://a.test:80/c\n",
        "",
        1,
    ),
    (
        "get http://localhost.:80/ http://a.localhost/",
        "200 1 new http://localhost.:80/\n200 1 new http://a.localhost/\n",
        "",
        2,
    ),
    // an unknown host fails its own URLs alone
    (
        "get http://gone.test/a http://a.test/b http://gone.test:81/c http://localhost/d",
        "Dial http://gone.test/a\n200 2 new http://a.test/b\nDial http://gone.test:81/c\n\
        200 2 new http://localhost/d\n",
        "run: 2 of 4 failed\n",
        2,
    ),
    // a crawl does as well
    (
        "get --parallel 1 http://gone.test/a http://a.test/b http://gone.test:81/c",
        "Dial http://gone.test/a\n200 2 new http://a.test/b\nDial http://gone.test:81/c\n",
        "run: 2 of 3 failed\n",
        2,
    ),
    // a host with a given address is not looked up
    (
        "get --resolve a.test:81:127.0.0.1 http://localhost/ http://a.test:81/a",
        "200 1 new http://localhost/\n200 2 new http://a.test:81/a\n",
        "",
        0,
    ),
    // unless the port is another one
    (
        "get --resolve a.test:81:127.0.0.1 http://a.test/a",
        "200 2 new http://a.test/a\n",
        "",
        1,
    ),
];

#[test]
fn names_are_looked_up_once(rt: HostRuntime) {
    for case in &NAMES {
        let (words, lines, errors, lookups) = *case;
        let row = Row {
            name: words,
            words,
            output: Text::Whole(lines),
            errors: Text::Whole(errors),
            status: if errors.is_empty() { 0 } else { 4 },
            ..ROW
        };
        let (network, _) = check(&rt, &row);
        let done = network.names.lookups.load(Ordering::SeqCst);
        assert_eq!(rt; done, lookups, "{words}");
    }
}

/// Words that are refused, with a NUL, which the system passes to no program, and how the message
/// begins.
static REFUSED: [(&str, &str); 1] = [(
    "get http://localhost/ http://127.0.0.1/\u{0}",
    "error: invalid value 'http://127.0.0.1/\\x00' for '[URL]...': a control character\n",
)];

#[test]
fn words_are_refused(rt: HostRuntime) {
    for &(words, start) in &REFUSED {
        let row = Row {
            name: words,
            words,
            errors: Text::Start(start),
            status: 2,
            ..ROW
        };
        let (network, _) = check(&rt, &row);
        assert_eq!(rt; network.openings.load(Ordering::SeqCst), 0, "{words}");
    }
}

/// Why the network can't be opened, and what is told of it.
static CLOSED: [(NetworkFault, &str); 3] = [
    (NetworkFault::Memory, "run: out of memory\n"),
    (NetworkFault::Poll, "run: poll failed\n"),
    (NetworkFault::Descriptors, "run: too few descriptors\n"),
];

#[test]
fn a_network_that_cannot_be_opened(rt: HostRuntime) {
    for &(fault, told) in &CLOSED {
        let row = Row {
            name: told,
            words: "get http://localhost/",
            network: Some(fault),
            errors: Text::Whole(told),
            status: 4,
            ..ROW
        };
        let _ = check(&rt, &row);
    }
}

#[test]
fn a_line_that_cannot_be_written(rt: HostRuntime) {
    let row = Row {
        name: "a line that cannot be written",
        words: "get http://[::1]/ http://[::1]/b http://[::1]/cc",
        errors: Text::Whole("run: cannot write\n"),
        status: 4,
        ..ROW
    };
    check_stopped(&rt, &row, "200 1 new http://[::1]/\n200 2 reu", false);
}

/// Options of a crawl of one transfer in flight at a time.
const ONE_AT_A_TIME: CrawlOptions = CrawlOptions {
    method: Method::Get,
    parallel: 1,
    host_limit: 0,
    total: 0,
    max_age: 118,
    max_life: 0,
    timeout: 30,
    flags: CrawlFlags {
        fresh: false,
        skip_bad: false,
        fail: false,
        json: false,
    },
};

// The URLs before a failed read are fetched; a line that was read in part is not.
#[test]
fn a_read_that_fails_in_the_middle(rt: HostRuntime) {
    let alloc = rt.alloc();
    let network = FakeNetwork::new(alloc, None);
    let crawl = Crawl {
        alloc,
        options: ONE_AT_A_TIME,
        urls: Vec::new(alloc),
        file: UrlFile::Regular,
        resolved: Vec::new(alloc),
    };
    let mut input = FailureCounted::new(Failing {
        bytes: b"http://127.0.0.1/f\nhttp://127.0.0.1/gg\nhttp://127.0.0.1/h",
    });
    let mut output = Vec::new(alloc);
    let crawled = crawl.run(&network, &mut input, &mut output);
    let expected = Crawled {
        tally: Tally {
            lines: 2,
            failed: 0,
        },
        fault: Some(CrawlFault::Input(StreamFault::Read)),
    };
    check_eq(&rt, crawled, expected);
    let lines = "200 2 new http://127.0.0.1/f\n200 3 reused http://127.0.0.1/gg\n";
    check_eq(&rt, output.as_slice(), lines.as_bytes());
}
