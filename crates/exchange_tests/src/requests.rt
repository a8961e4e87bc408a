//! The bytes of requests: what a wire gets, and what it answers at each call.

use crate::checks::check_eq;
use crate::driving::{
    GOOD, KEEP, MOST_POLLS, NOW, OK, abandon, cache_of, check_last, check_log, close, closed,
    dial_of, job_at, lease_of, opened, prepared, prepared_at, returned, run_at_once, run_keeping,
    want_of, wire_of,
};
use cache::Pool;
use conn_log::{Cause, Want};
use exchange::{Answer, Done, Read, Stage, Wire, Written};
use exchange_memory::{Halt, MemoryWire, Returned};
use persistence::{Facts, Framing, Method};
use std::process::Abort;

#[test]
fn a_request_has_its_text(rt: HostRuntime) {
    let plain = "http://Example.COM/a?b=1";
    let other = "http://Example.COM:8080/a?b=1";
    for &(method, url, forbid_reuse, text) in &[
        (
            Method::Get,
            plain,
            false,
            "GET /a?b=1 HTTP/1.1\r\nHost: example.com\r\n\r\n",
        ),
        (
            Method::Get,
            plain,
            true,
            "GET /a?b=1 HTTP/1.1\r\nHost: example.com\r\nConnection: close\r\n\r\n",
        ),
        (
            Method::Get,
            other,
            false,
            "GET /a?b=1 HTTP/1.1\r\nHost: example.com:8080\r\n\r\n",
        ),
        (
            Method::Get,
            "http://[::1]/",
            false,
            "GET / HTTP/1.1\r\nHost: [::1]\r\n\r\n",
        ),
        (
            Method::Get,
            "http://[2001:DB8::1]:8080/",
            false,
            "GET / HTTP/1.1\r\nHost: [2001:db8::1]:8080\r\n\r\n",
        ),
        (
            Method::Head,
            plain,
            false,
            "HEAD /a?b=1 HTTP/1.1\r\nHost: example.com\r\n\r\n",
        ),
    ] {
        let want = Want {
            forbid_reuse,
            ..want_of(1)
        };
        let parts = prepared_at(&rt, 0, method, url, want);
        check_eq(&rt, parts.text(), text);
    }
}

// The pool's idle wire was sent that, and its peer has nothing more to answer.
fn check_sent<R: Abort>(rt: &R, pool: &mut Pool<MemoryWire>, text: &[u8]) {
    let mut lease = lease_of(rt, pool, 2, NOW);
    let wire = lease.stream_mut().expect(rt, "the wire");
    check_eq(rt, wire.sent(), text);
    check_eq(rt, (wire.unread(), wire.failures()), (0, 0));
    abandon(pool, lease);
}

#[test]
fn the_wire_gets_the_request(rt: HostRuntime) {
    let text: &[u8] = b"GET /a?b=1 HTTP/1.1\r\nHost: example.com\r\n\r\n";
    for most in 1..=text.len() {
        let want = want_of(1);
        let parts = prepared_at(&rt, 0, Method::Get, "http://Example.COM/a?b=1", want);
        let mut wire = wire_of(&rt, OK);
        wire.set_most_written(most);
        let mut dial = dial_of(&rt, wire);
        let mut cache = cache_of(&rt);
        let done = run_at_once(&rt, parts, &mut cache, &mut dial);
        assert_eq!(rt; done, Done::Good(GOOD), "{most} bytes a write");
        let back = Returned {
            site: 0,
            facts: KEEP,
        };
        check_eq(&rt, cache.last_return(), Some(back));
        check_log(
            &rt,
            &cache,
            &[opened(1, want_of(1), NOW), returned(1, KEEP, NOW)],
        );
        check_sent(&rt, &mut close(&rt, cache), text);
    }
}

#[test]
fn what_was_prepared_serves_another_job(rt: HostRuntime) {
    let text = "HEAD /b?c=2 HTTP/1.1\r\nHost: example.com\r\nConnection: close\r\n\r\n";
    let want = Want {
        fresh: true,
        forbid_reuse: true,
        ..want_of(2)
    };
    let job = job_at(&rt, 0, Method::Head, "http://example.com/b?c=2", want);
    let mut dial = dial_of(&rt, wire_of(&rt, OK));
    // it has room for that text alone
    let head = b"HTTP/1.1 200 OK\r\nContent-Length: 2\r\n\r\n";
    let wire = MemoryWire::new(rt.alloc(), head, text.len()).expect(&rt, "memory");
    dial.add(wire).expect(&rt, "memory");
    let mut cache = cache_of(&rt);
    let (done, pending, parts) = run_keeping(
        &rt,
        prepared(&rt),
        &mut cache,
        &mut dial,
        Stage::Turn,
        MOST_POLLS,
    );
    check_eq(&rt, (done, pending), (Done::Good(GOOD), 0));
    let parts = match parts.again(&job) {
        Ok(parts) => parts,
        Err(_) => panic!(rt; "no memory"),
    };
    check_eq(&rt, parts.text(), text);
    let done = run_at_once(&rt, parts, &mut cache, &mut dial);
    let facts = Facts {
        request_close: true,
        framing: Framing::NoBody,
        ..KEEP
    };
    let answer = Answer {
        body_len: 0,
        facts,
        ..GOOD
    };
    check_eq(&rt, done, Done::Good(answer));
    check_last(&rt, &cache, closed(2, Cause::Forbidden, NOW));
    let _ = close(&rt, cache);
}

#[test]
fn a_wire_carries_two_requests(rt: HostRuntime) {
    let responses = b"HTTP/1.1 200 OK\r\nContent-Length: 2\r\n\r\nok\
        HTTP/1.1 200 OK\r\nContent-Length: 2\r\n\r\nok";
    let mut wire = wire_of(&rt, responses);
    wire.set_most_read(OK.len());
    let mut dial = dial_of(&rt, wire);
    let mut cache = cache_of(&rt);
    for &reused in &[false, true] {
        check_eq(&rt, (cache.leases(), cache.tickets()), (0, 0));
        let done = run_at_once(&rt, prepared(&rt), &mut cache, &mut dial);
        check_eq(&rt, done, Done::Good(Answer { reused, ..GOOD }));
    }
    let requests = b"GET / HTTP/1.1\r\nHost: example.com\r\n\r\n\
        GET / HTTP/1.1\r\nHost: example.com\r\n\r\n";
    check_sent(&rt, &mut close(&rt, cache), requests);
}

// What a read and a write give, and how many calls have failed then; the bytes that were read.
fn check_calls<R: Abort>(rt: &R, wire: &mut MemoryWire, expected: (Read, Written, u64)) -> [u8; 4] {
    let mut buffer = [0; 4];
    let read = wire.read(&mut buffer);
    let written = wire.write(b"GET ");
    check_eq(rt, (read, written, wire.failures()), expected);
    buffer
}

#[test]
fn a_wire_counts_its_failures(rt: HostRuntime) {
    for &(halt, read, written, failures) in &[
        (Halt::NotYet, Read::NotYet, Written::NotYet, 0),
        (Halt::End, Read::End, Written::Fault, 1),
        (Halt::Fault, Read::Fault, Written::Fault, 2),
    ] {
        let mut wire = wire_of(&rt, OK);
        wire.halt_read(1, halt);
        wire.halt_write(1, halt);
        let _ = check_calls(&rt, &mut wire, (read, written, failures));
        // and the calls behind are as ever
        let expected = (Read::Bytes(4), Written::Took(4), failures);
        let bytes = check_calls(&rt, &mut wire, expected);
        assert_eq!(rt; bytes, *b"HTTP", "{halt:?}");
    }
}
