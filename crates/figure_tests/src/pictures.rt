//! Escaped texts and elements of drawings; and how many marks the pictures of small logs have.

use crate::checks::check_eq;
use conn_log::{Cause, Entry, Event, Want};
use drawing::{Anchor, Drawing, Point, Size, Style, add_escaped};
use persistence::{Facts, Framing, Version};
use script_picture::{MOST_EVENTS, PicturedHost, picture_of};
use script_text::Limits;
use std::alloc::{AllocError, AllocGlobal, Global};
use std::process::Abort;

/// Texts, and what Python's `xml.sax.saxutils.quoteattr` makes of them between the quotes. The last
/// one has characters that XML 1.0 refuses.
static ESCAPED: [(&str, &str); 7] = [
    ("", ""),
    ("http://a.test/", "http://a.test/"),
    ("a < b && c > d", "a &lt; b &amp;&amp; c &gt; d"),
    ("say \"]]>\"", "say &quot;]]&gt;&quot;"),
    ("&lt;", "&amp;lt;"),
    ("größer 𝔸\u{fffd}", "größer 𝔸\u{fffd}"),
    (
        "\u{0}\u{1b}\u{fffe}\u{ffff}",
        "\u{fffd}\u{fffd}\u{fffd}\u{fffd}",
    ),
];

#[test]
fn texts_are_escaped(rt: HostRuntime) {
    for (text, escaped) in &ESCAPED {
        let mut out = String::new(rt.alloc());
        add_escaped(&mut out, text).expect(&rt, "memory");
        check_eq(&rt, out.as_str(), *escaped);
    }
}

/// A drawing whose style is empty, of one text.
const BEGIN: &str = "<svg xmlns=\"http://www.w3.org/2000/svg\" width=\"20\" height=\"10\" \
    viewBox=\"0 0 20 10\" role=\"img\">\n<title>a&amp;b</title><style>";

const END: &str = "<g class=\"outer\"><title>1 &lt; 2</title>\n<g class=\"inner\">\n\
    <text class=\"x\" x=\"1\" y=\"2\" text-anchor=\"middle\">&lt;script&gt;</text>\n\
    </g>\n</g>\n</svg>\n";

/// A drawing in which no group is ended.
fn two_groups(alloc: Global) -> Result<String, AllocError> {
    let size = Size {
        width: 20,
        height: 10,
    };
    let style = Style { all: "", dark: "" };
    let mut drawing = Drawing::new(alloc, size, "a&b", style)?;
    drawing.end_group()?;
    drawing.begin_group("outer", "1 < 2")?;
    drawing.begin_group("inner", "")?;
    drawing.text("x", Point { x: 1, y: 2 }, Anchor::Middle, "<script>")?;
    drawing.finish()
}

#[test]
fn what_is_begun_is_ended(rt: HostRuntime) {
    let drawn = two_groups(rt.alloc()).expect(&rt, "memory");
    assert!(rt; drawn.as_str().starts_with(BEGIN), "{drawn}");
    assert!(rt; drawn.as_str().ends_with(END), "{drawn}");
}

/// An event in short: the numbers of its connection and its transfer.
#[derive(Clone, Copy)]
enum Happened {
    Opened(u32, u64),
    Leased(u32, u64),
    Returned(u32),
    Closed(u32, Cause),
    Waited(u64),
    Left(u64),
    Limit(u32),
}

/// The beginnings of the classes of marks.
static CLASSES: [&str; 8] = [
    "host\"",
    "connection\"",
    "leased\"",
    "idle\"",
    "closed ",
    "waiter\"",
    "limit\"",
    "legend\"",
];

/// A log, and how many marks of each class its picture has under a limit of two connections.
struct Row {
    name: &'static str,
    log: &'static [(u64, Happened)],
    marks: [usize; 8],
}

static ROWS: [Row; 6] = [
    Row {
        name: "nothing happens",
        log: &[],
        marks: [1, 0, 0, 0, 0, 0, 1, 1],
    },
    Row {
        name: "a connection is used twice and stays idle",
        log: &[
            (0, Happened::Opened(1, 1)),
            (2, Happened::Returned(1)),
            (2, Happened::Leased(1, 2)),
            (9, Happened::Returned(1)),
        ],
        marks: [1, 1, 2, 2, 0, 0, 1, 1],
    },
    Row {
        name: "connections are closed for two causes",
        log: &[
            (0, Happened::Opened(1, 1)),
            (0, Happened::Opened(2, 2)),
            (1, Happened::Closed(1, Cause::Dropped)),
            (1, Happened::Returned(2)),
            (1, Happened::Closed(2, Cause::Cut)),
        ],
        marks: [1, 2, 2, 1, 2, 0, 1, 1],
    },
    Row {
        name: "of three waiters one gets a connection, and one leaves",
        log: &[
            (0, Happened::Opened(1, 1)),
            (0, Happened::Waited(2)),
            (0, Happened::Waited(3)),
            (0, Happened::Waited(4)),
            (1, Happened::Returned(1)),
            (1, Happened::Leased(1, 2)),
            (18_446_744_073_709_551_615, Happened::Left(3)),
        ],
        marks: [1, 1, 2, 1, 0, 3, 1, 1],
    },
    Row {
        name: "a limit changes twice, to one that is far above",
        log: &[
            (5, Happened::Opened(1, 1)),
            (6, Happened::Limit(1)),
            (7, Happened::Limit(65_535)),
        ],
        marks: [1, 1, 1, 0, 0, 0, 2, 1],
    },
    Row {
        name: "no limit",
        log: &[(5, Happened::Limit(0)), (5, Happened::Opened(1, 1))],
        marks: [1, 1, 1, 0, 0, 0, 1, 1],
    },
];

/// The facts of a response; no picture shows them.
const FACTS: Facts = Facts {
    version: Version::V11,
    close: false,
    keep_alive: false,
    request_close: false,
    framing: Framing::NoBody,
    both_lengths: false,
    upgraded: false,
    whole: true,
    surplus: false,
};

fn event_of(happened: Happened) -> Event {
    match happened {
        Happened::Opened(connection, transfer) => Event::Opened {
            connection,
            want: Want::of(transfer),
        },
        Happened::Leased(connection, transfer) => Event::Leased {
            connection,
            want: Want::of(transfer),
        },
        Happened::Returned(connection) => Event::Returned {
            connection,
            facts: FACTS,
        },
        Happened::Closed(connection, cause) => Event::Closed { connection, cause },
        Happened::Waited(transfer) => Event::Waited {
            want: Want::of(transfer),
        },
        Happened::Left(transfer) => Event::Left { transfer },
        Happened::Limit(limit) => Event::Limit { limit },
    }
}

fn log_of(alloc: Global, happened: &[(u64, Happened)]) -> Result<Vec<Entry>, AllocError> {
    let mut log = Vec::new(alloc);
    for (moment, happened) in happened {
        log.push(Entry {
            moment: *moment,
            event: event_of(*happened),
        })?;
    }
    Ok(log)
}

// The picture of a host with this log.
fn drawn(alloc: Global, log: &[Entry]) -> Result<String, AllocError> {
    let limits = Limits {
        host: 2,
        total: 0,
        kept: 4,
    };
    let host = PicturedHost {
        site: "http://a.test/",
        log,
    };
    picture_of(alloc, Some(limits), &[host])
}

/// Returns the number of elements whose class begins with `class`.
pub fn count<R: AllocGlobal + Abort>(rt: &R, picture: &str, class: &str) -> usize {
    let mut start = String::new(rt.alloc());
    start.push_str("class=\"").expect(rt, "memory");
    start.push_str(class).expect(rt, "memory");
    picture.matches(start.as_str()).count()
}

/// Checks how many elements have each of these classes.
pub fn check_marks<R: AllocGlobal + Abort>(
    rt: &R,
    picture: &str,
    classes: &[&'static str],
    marks: &[usize],
    name: &str,
) {
    for (class, expected) in classes.iter().zip(marks.iter()) {
        let counted = count(rt, picture, class);
        assert_eq!(rt; counted, *expected, "{name}: {class}");
    }
}

#[test]
fn each_connection_and_waiter_has_its_marks(rt: HostRuntime) {
    for row in &ROWS {
        let log = log_of(rt.alloc(), row.log).expect(&rt, "memory");
        let picture = drawn(rt.alloc(), &log).expect(&rt, "memory");
        check_marks(&rt, picture.as_str(), &CLASSES, &row.marks, row.name);
    }
}

// Of a log of that many connections, each of which is closed as the next one is opened.
fn one_after_another(alloc: Global, connections: u32) -> Result<Vec<Entry>, AllocError> {
    let mut log = Vec::new(alloc);
    for connection in 1..=connections {
        let want = Want::of(1);
        log.push(Entry {
            moment: 7,
            event: Event::Opened { connection, want },
        })?;
        let cause = Cause::Dropped;
        log.push(Entry {
            moment: 7,
            event: Event::Closed { connection, cause },
        })?;
    }
    Ok(log)
}

/// Numbers of connections that are opened and closed, and of those that the picture shows.
static SHOWN: [(u32, usize); 3] = [(5_000, 5_000), (5_001, 5_000), (6_000, 5_000)];

// The first of the connections was open at the first event that is shown, the second one is older.
#[test]
fn the_newest_events_are_shown(rt: HostRuntime) {
    for (connections, shown) in &SHOWN {
        let log = one_after_another(rt.alloc(), *connections).expect(&rt, "memory");
        let picture = drawn(rt.alloc(), &log).expect(&rt, "memory");
        check_eq(&rt, count(&rt, picture.as_str(), "connection\""), *shown);
        check_eq(
            &rt,
            log.len() > MOST_EVENTS,
            picture.as_str().contains("the newest 10000 of"),
        );
    }
}

#[test]
fn a_limit_takes_the_place_of_an_event(rt: HostRuntime) {
    let mut log = one_after_another(rt.alloc(), 5_000).expect(&rt, "memory");
    let event = Event::Limit { limit: 1 };
    log.push(Entry { moment: 8, event }).expect(&rt, "memory");
    let picture = drawn(rt.alloc(), &log).expect(&rt, "memory");
    check_eq(&rt, count(&rt, picture.as_str(), "connection\""), 5_000);
}

// Events of one moment stand side by side, and those of two hosts below each other.
#[test]
fn a_script_without_hosts_or_limits_has_a_picture(rt: HostRuntime) {
    let picture = picture_of(rt.alloc(), None, &[]).expect(&rt, "memory");
    assert!(rt; picture.as_str().contains(">0 events<"), "{picture}");
    check_eq(&rt, count(&rt, picture.as_str(), "host\""), 0);
}

// Under `rt try --test --fail-alloc N`: an allocation failure is reported, and nothing else happens.
#[test]
fn an_allocation_failure_is_told(rt: HostRuntime) {
    let Ok(log) = log_of(rt.alloc(), ROWS[3].log) else {
        return;
    };
    if let Ok(picture) = drawn(rt.alloc(), &log) {
        assert!(rt; picture.as_str().ends_with("</svg>\n"));
    }
}
