//! Audits of traces that come piece by piece, and answers that cannot be written.

use crate::running::{ROW, Row, Text, check_stopped};
use audit_stream::{AuditOutput, AuditStop, Verdict, audit_stream};
use std::alloc::{AllocError, Global};
use std::fmt::Write;
use std::io::Read;
use std::{io, str};
use streams::FailureCounted;

/// A connection that is reused too late.
pub const BROKEN: &str = "limits 2 0 4\nsite http://a.test/\nget 1 0 0 at 0\n\
    opened 0.1 for 1 at 0\nback 1 0 keep at 139\nreturned 0.1 by 1 at 139\n\
    get 7 0 0 at 260\nleased 0.1 to 7 at 260\nclosed 0.1 at 261\n";

const TOO_LATE: &str = "trace:8: leased 0.1 to 7 at 260: idle for 121 seconds, and transfer 7 \
    accepts 118\ntrace:6: here 0.1 came back\n";

/// A start that passes the host limit, of which three lines tell, and one beside.
const NOT_TAKEN: &str = "limits 1 0 4\r\nsite http://a.test/\r\nget 1 0 0 at 0\r\n\
    opened 0.1 for 1 at 0\r\nget 2 0 0 at 0\r\nopened 0.2 for 2 at 0\r\nback 2 0 keep at 1\r\n\
    returned 0.2 by 2 at 1\r\nclosed 0.2 at 2\r\nclosed 0.2 at 3\r\n";

const LAWFUL: &str = "limits 2 0 4\nsite http://a.test/\n";

// Words, and what stands before the write that fails.
static FRONTS: [(&str, &str); 3] = [
    ("audit", "trace:8: leased 0.1 to"),
    ("audit --json", "{\"lawful\": false, \"ev"),
    ("audit --all", ""),
];

#[test]
fn answers_that_cannot_be_written(rt: HostRuntime) {
    for (words, front) in &FRONTS {
        let row = Row {
            name: words,
            words,
            script: BROKEN,
            errors: Text::Whole("run: cannot write\n"),
            status: 4,
            ..ROW
        };
        check_stopped(&rt, &row, front, false);
        check_stopped(&rt, &row, front, true);
    }
}

/// How violations are told if no flag is given.
const PLAIN: AuditOutput = AuditOutput {
    all: false,
    json: false,
    state: false,
};

/// Gives so many bytes at a time, and then the end, or fails.
#[derive(Drop)]
struct Pieces<'a> {
    bytes: &'a [u8],
    size: usize,
    fails: bool,
}

impl Read for Pieces<'_> {
    fn read(&mut self, buf: &mut [u8]) -> io::Result<usize> {
        let count = self.size.min(self.bytes.len()).min(buf.len());
        if count == 0 && self.fails {
            return Err(io::ErrorKind::Interrupted.into());
        }
        let (first, rest) = self.bytes.split_at(count);
        buf[..count].copy_from_slice(first);
        self.bytes = rest;
        Ok(count)
    }
}

/// The verdict on a trace that comes in pieces of that size, and the answer.
fn verdict_on(
    alloc: Global,
    trace: &[u8],
    size: usize,
    fails: bool,
) -> (Result<Verdict, AuditStop>, Vec<u8>) {
    let mut reader = FailureCounted::new(Pieces {
        bytes: trace,
        size,
        fails,
    });
    let mut answer = Vec::new(alloc);
    let verdict = audit_stream(alloc, "trace", PLAIN, &mut reader, &mut answer);
    (verdict, answer)
}

// A trace, the answer, and the verdict.
static PIECES: [(&str, &str, Verdict); 3] = [
    (BROKEN, TOO_LATE, Verdict::Broken),
    (
        NOT_TAKEN,
        "trace:6: opened 0.2 for 2 at 0: past the host limit: 1 open, limit 1\n",
        Verdict::Broken,
    ),
    (
        "limits 2 0 4\r\nsite http://a.test/\r\nrest\r\n",
        "lawful: 0 events, 1 host, 0 still open, waits not told\n",
        Verdict::Lawful,
    ),
];

#[test]
fn traces_that_come_in_pieces(rt: HostRuntime) {
    for (trace, expected, verdict) in &PIECES {
        for size in 1..20 {
            let (found, answer) = verdict_on(rt.alloc(), trace.as_bytes(), size, false);
            let text = str::from_utf8(answer.as_slice()).unwrap_or("no text");
            assert!(rt;
                found == Ok(*verdict) && text == *expected,
                "{size}: {text}"
            );
        }
    }
}

#[test]
fn a_trace_whose_reader_fails(rt: HostRuntime) {
    let (found, answer) = verdict_on(rt.alloc(), LAWFUL.as_bytes(), 7, true);
    assert!(rt; found == Err(AuditStop::Read) && answer.is_empty());
}

/// A trace of so many starts, each of which is given back, with a comment of that many bytes.
fn long_trace(alloc: Global, count: u64, comment: usize) -> Result<String, AllocError> {
    let mut trace = String::from_str(alloc, LAWFUL)?;
    trace.push('#')?;
    for _ in 1..comment {
        trace.push('x')?;
    }
    write!(trace, "\nget 0 0 0 at 0\nopened 0.1 for 0 at 0\n")?;
    for transfer in 0..count {
        let next = transfer + 1;
        write!(
            trace,
            "back {transfer} 0 keep at 0\nreturned 0.1 by {transfer} at 0\n"
        )?;
        write!(trace, "get {next} 0 0 at 0\nleased 0.1 to {next} at 0\n")?;
    }
    Ok(trace)
}

// Bytes of a comment. Each piece has 65,536 bytes: its end falls on several places in a line.
static COMMENTS: [usize; 6] = [1, 2, 7, 12, 17, 22];

#[test]
fn a_trace_of_many_pieces(rt: HostRuntime) {
    let expected = "lawful: 1,801 events, 1 host, 1 still open, waits not told\n";
    for comment in &COMMENTS {
        let trace = long_trace(rt.alloc(), 900, *comment).expect(&rt, "memory");
        let (found, answer) = verdict_on(rt.alloc(), trace.as_bytes(), usize::MAX, false);
        let text = str::from_utf8(answer.as_slice()).unwrap_or("no text");
        assert!(rt;
            found == Ok(Verdict::Lawful) && text == expected,
            "{comment}: {text}"
        );
    }
}

// Bytes of a comment, and whether its line is read.
static LONG: [(usize, bool); 4] = [
    (2_304, true),
    (2_305, false),
    (2_306, false),
    (200_000, false),
];

#[test]
fn lines_as_long_as_they_may_be(rt: HostRuntime) {
    let lawful = Ok(Verdict::Lawful);
    for (comment, is_read) in &LONG {
        let trace = long_trace(rt.alloc(), 1, *comment).expect(&rt, "memory");
        let (found, answer) = verdict_on(rt.alloc(), trace.as_bytes(), 1_000, false);
        let text = format!(in rt.alloc(); "{:?}", found).expect(&rt, "memory");
        let is_told = text.contains("LineTooLong") && answer.is_empty();
        assert!(rt;
            if *is_read { found == lawful } else { is_told },
            "{comment}: {text}"
        );
    }
}
