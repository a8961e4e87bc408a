//! Whether a connection persists, by the facts of its response.
use persistence::{Facts, Framing, Method, ReadFault, ResponseReader, Version, persists};

/// The facts of a counted HTTP/1.1 response that was read whole, where nothing else is said.
pub(crate) const KEEP: Facts = Facts {
    version: Version::V11,
    close: false,
    keep_alive: false,
    request_close: false,
    framing: Framing::Counted,
    both_lengths: false,
    upgraded: false,
    whole: true,
    surplus: false,
};

/// Responses, and whether each lets its connection persist.
static ROWS: [(&str, Facts, bool); 14] = [
    ("HTTP/1.1", KEEP, true),
    (
        "HTTP/1.0 without keep-alive",
        Facts {
            version: Version::V10,
            ..KEEP
        },
        false,
    ),
    (
        "HTTP/1.0 with keep-alive",
        Facts {
            version: Version::V10,
            keep_alive: true,
            ..KEEP
        },
        true,
    ),
    (
        "close received",
        Facts {
            close: true,
            ..KEEP
        },
        false,
    ),
    (
        "close and keep-alive received",
        Facts {
            close: true,
            keep_alive: true,
            ..KEEP
        },
        false,
    ),
    (
        "close sent",
        Facts {
            request_close: true,
            ..KEEP
        },
        false,
    ),
    (
        "no body",
        Facts {
            framing: Framing::NoBody,
            ..KEEP
        },
        true,
    ),
    (
        "in chunks",
        Facts {
            framing: Framing::Chunked,
            ..KEEP
        },
        true,
    ),
    (
        "until the connection ends",
        Facts {
            framing: Framing::UntilClose,
            ..KEEP
        },
        false,
    ),
    (
        "a framing that cannot be relied on",
        Facts {
            framing: Framing::Faulty,
            ..KEEP
        },
        false,
    ),
    (
        "both lengths",
        Facts {
            both_lengths: true,
            ..KEEP
        },
        false,
    ),
    (
        "status 101",
        Facts {
            upgraded: true,
            ..KEEP
        },
        false,
    ),
    (
        "bytes after its end",
        Facts {
            surplus: true,
            ..KEEP
        },
        false,
    ),
    (
        "not read whole",
        Facts {
            whole: false,
            ..KEEP
        },
        false,
    ),
];

#[test]
fn persists_by_the_facts(rt: HostRuntime) {
    for row in &ROWS {
        let (case, facts, expected) = *row;
        assert_eq!(rt; persists(&facts), expected, "{case}");
    }
}

fn is_send_and_sync<T: Send + Sync + Drop>(_value: T) {}

#[test]
fn a_reader_may_be_sent_and_shared(rt: HostRuntime) {
    is_send_and_sync(ResponseReader::new(rt.alloc(), Method::Get, false).expect(&rt, "memory"));
}
