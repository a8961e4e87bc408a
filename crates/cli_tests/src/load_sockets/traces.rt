//! Traces of loads are lawful, and have the events that the report counts.

use crate::load_sockets::account::account_of;
use crate::load_sockets::running::run_words;
use std::fs;
use std::str::from_utf8;

/// A file that each trace is written to.
const FILE: &str = "load.trace";

/// Words of loads, less the file, and the hosts that an audit of the trace tells of.
static LOADS: [(&str, &str); 6] = [
    ("load --sites 1 --jobs 3 --workers 1", " events, 1 host, "),
    (
        "load --sites 2 --jobs 4 --workers 1 --total 1",
        " events, 2 hosts, ",
    ),
    (
        "load --sites 3 --jobs 60 --workers 8 --host-limit 2 --total 3 --connects 2",
        " events, 3 hosts, ",
    ),
    (
        "load --sites 8 --jobs 200 --workers 16 --host-limit 1 --total 4",
        " events, 8 hosts, ",
    ),
    (
        "load --sites 1 --jobs 100 --workers 12 --host-limit 3 --connects 1",
        " events, 1 host, ",
    ),
    (
        "load --sites 4 --jobs 100 --workers 64",
        " events, 4 hosts, ",
    ),
];

#[test]
fn traces_are_lawful(rt: HostRuntime) {
    for (load, hosts) in &LOADS {
        let words = format!(in rt.alloc(); "{load} --trace {FILE}").expect(&rt, "memory");
        let loaded = run_words(&rt, &rt, words.as_str()).expect(&rt, "memory");
        assert_eq!(rt; loaded.status, 0, "{words}");
        let audit = format!(in rt.alloc(); "audit {FILE}").expect(&rt, "memory");
        let audited = run_words(&rt, &rt, audit.as_str()).expect(&rt, "memory");
        let told = from_utf8(audited.output.as_slice()).expect(&rt, "a text");
        let is_lawful = told.starts_with("lawful: ") && !told.starts_with("lawful: 0 ");
        assert!(rt; is_lawful && told.contains(hosts), "{words}: {told}");
        assert_eq!(rt; audited.status, 0, "{words}");
    }
    let removed = fs::remove_file(&rt, FILE);
    assert!(rt; removed.is_ok());
}

/// The file for a trace that is written in several parts.
const LONG_FILE: &str = "long-load.trace";

#[test]
fn a_trace_has_what_is_cut_during_a_load(rt: HostRuntime) {
    let load = "load --sites 3 --seconds 1 --rate 300 --quiet";
    let words = format!(in rt.alloc(); "{load} --trace {LONG_FILE}").expect(&rt, "memory");
    let loaded = run_words(&rt, &rt, words.as_str()).expect(&rt, "memory");
    assert_eq!(rt; loaded.status, 0, "{words}");
    let report = from_utf8(loaded.output.as_slice()).expect(&rt, "a text");
    let account = account_of(report, 3).expect(&rt, "a report");
    let trace = fs::read_to_string(&rt, LONG_FILE).expect(&rt, "a trace");
    for (event, count) in &account.events() {
        let lines = trace.as_str().lines();
        let count_in_trace = lines
            .filter(|line| line.split(' ').next() == Some(*event))
            .count();
        assert_eq!(rt; count_in_trace as u64, *count, "{event}: {report}");
    }
    let audit = format!(in rt.alloc(); "audit {LONG_FILE}").expect(&rt, "memory");
    let audited = run_words(&rt, &rt, audit.as_str()).expect(&rt, "memory");
    assert_eq!(rt; audited.status, 0, "{words}");
    let removed = fs::remove_file(&rt, LONG_FILE);
    assert!(rt; removed.is_ok());
}
