//! The summary of a load, and its JSON.

use crate::checks::check_eq;
use crate::figures::{six_jobs, two_hosts};
use commands::Build;
use load_figures::Figures;
use load_report::{
    Connections, JobReport, Latencies, LoadReport, OptionValue, SaidOption, Summary, json_text,
};
use std::alloc::{AllocError, Global};

/// A report of no job, whose numbers a row then sets.
fn empty_report(alloc: Global) -> Result<LoadReport, AllocError> {
    LoadReport::new(alloc, two_hosts(alloc)?, &Figures::new(alloc, 2)?)
}

/// Numbers of a report, and its summary.
struct Row {
    jobs: JobReport,
    elapsed_us: u64,
    missed: u64,
    connections: Connections,
    waited_us: u64,
    text: &'static str,
}

/// The report of no job.
const NO_JOB: JobReport = JobReport {
    requests: 0,
    good: 0,
    failed: 0,
    stopped: 0,
    retried: 0,
    reused: 0,
    bytes: 0,
    statuses: [0; 5],
    faults: [0; 8],
    latencies: None,
};

/// The first is the summary that the rules give as an example, and the others are worked by hand.
static ROWS: [Row; 3] = [
    Row {
        jobs: JobReport {
            requests: 12_345,
            good: 12_345,
            bytes: 49_380,
            statuses: [0, 12_345, 0, 0, 0],
            latencies: Some(Latencies {
                p50: 310,
                p90: 520,
                p99: 1100,
                p999: 4200,
                max: 5010,
                mean: 330,
            }),
            ..NO_JOB
        },
        elapsed_us: 5_000_000,
        missed: 0,
        connections: Connections {
            opened: 4,
            reused: 12_341,
            closed: 0,
            waited: 12,
            open: 4,
        },
        waited_us: 40_800,
        text: "\
requests     2469.0 a second, 12345 in 5.00 s, 0 failed
bytes        9876.0 a second, 49380 in all
latency      50% 0.31 ms, 90% 0.52 ms, 99% 1.10 ms, 99.9% 4.20 ms, greatest 5.01 ms
connections  4 opened, 12341 reused, 0 closed, 12 waited 40.80 ms
responses    2xx 12345
faults       none
",
    },
    Row {
        jobs: NO_JOB,
        elapsed_us: 0,
        missed: 0,
        connections: Connections {
            opened: 0,
            reused: 0,
            closed: 0,
            waited: 0,
            open: 0,
        },
        waited_us: 0,
        text: "\
requests     0.0 a second, 0 in 0 us, 0 failed
bytes        0.0 a second, 0 in all
latency      none
connections  0 opened, 0 reused, 0 closed, 0 waited 0 us
responses    none
faults       none
",
    },
    Row {
        jobs: JobReport {
            requests: 5,
            good: 2,
            failed: 3,
            stopped: 32,
            retried: 1,
            bytes: 10,
            statuses: [0, 2, 0, 0, 2],
            faults: [0, 0, 0, 0, 1, 2, 0, 0],
            latencies: Some(Latencies {
                p50: 99,
                p90: 100,
                p99: 999_994,
                p999: 999_995,
                max: 61_000_000,
                mean: 99,
            }),
            ..NO_JOB
        },
        elapsed_us: 3_000_000,
        missed: 969,
        connections: Connections {
            opened: 1,
            reused: 2,
            closed: 3,
            waited: 4,
            open: 5,
        },
        waited_us: 3_599_996_000,
        text: "\
requests     1.7 a second, 5 in 3.00 s, 3 failed, 969 missed, 32 stopped, 1 retried
bytes        3.3 a second, 10 in all
latency      50% 99 us, 90% 0.10 ms, 99% 999.99 ms, 99.9% 1.00 s, greatest 61.00 s
connections  1 opened, 2 reused, 3 closed, 4 waited 3600.00 s
responses    2xx 2, 5xx 2
faults       Cut 1, Cancelled 2
",
    },
];

#[test]
fn the_summary_has_six_lines(rt: HostRuntime) {
    let alloc = rt.alloc();
    for row in &ROWS {
        let mut report = empty_report(alloc).expect(&rt, "memory");
        report.jobs = row.jobs;
        report.connections = row.connections;
        report.run.elapsed_us = row.elapsed_us;
        report.run.missed = row.missed;
        report.run.waited_us = row.waited_us;
        let text = Summary(&report).to_string(alloc).expect(&rt, "memory");
        check_eq(&rt, text.as_str(), row.text);
    }
}

#[test]
fn figures_of_an_unproved_program_say_so(rt: HostRuntime) {
    let alloc = rt.alloc();
    let mut run = two_hosts(alloc).expect(&rt, "memory");
    run.build = Build::Unproved;
    let none = Figures::new(alloc, 2).expect(&rt, "memory");
    let report = LoadReport::new(alloc, run, &none).expect(&rt, "memory");
    let text = Summary(&report).to_string(alloc).expect(&rt, "memory");
    let last = text.as_str().lines().last();
    check_eq(&rt, last, Some("build        unproved, checked"));
    let json = json_text(alloc, &report).expect(&rt, "memory");
    let front = "{\"build\":\"unproved, checked\",\"bytes\":0,";
    check_eq(&rt, json.as_str().starts_with(front), true);
}

/// The JSON of a report of no job, with two options: written by Python's `json.dumps` with
/// `sort_keys` and without spaces, from numbers worked by hand.
const EMPTY: &str = "\
    {\"build\":\"proved\",\"bytes\":0,\"bytes_per_second\":0,\
    \"connections\":{\"closed\":2,\"open\":2,\"opened\":4,\"reused\":2,\"waited\":4,\"waited_us\":40800},\"elapsed_us\":500000,\"failed\":0,\
    \"faults\":{\"BadResponse\":0,\"Cancelled\":0,\"Cut\":0,\"Dial\":0,\"Memory\":0,\
    \"Read\":0,\"Refused\":0,\"Write\":0},\"good\":0,\"histogram\":[],\"hosts\":[{\"bytes\":0,\
    \"closed\":2,\"failed\":0,\"faults\":{\"BadResponse\":0,\"Cancelled\":0,\"Cut\":0,\
    \"Dial\":0,\"Memory\":0,\"Read\":0,\"Refused\":0,\"Write\":0},\"good\":0,\
    \"host\":\"127.0.0.1:8080\",\"latency_us\":null,\"open\":1,\"opened\":3,\"requests\":0,\
    \"retried\":0,\"reused\":1,\"statuses\":{\"1xx\":0,\"2xx\":0,\"3xx\":0,\"4xx\":0,\
    \"5xx\":0},\"stopped\":0,\"waited\":4},{\"bytes\":0,\"closed\":0,\"failed\":0,\
    \"faults\":{\"BadResponse\":0,\"Cancelled\":0,\"Cut\":0,\"Dial\":0,\"Memory\":0,\
    \"Read\":0,\"Refused\":0,\"Write\":0},\"good\":0,\"host\":\"[::1]:8081\",\
    \"latency_us\":null,\"open\":1,\"opened\":1,\"requests\":0,\"retried\":0,\"reused\":1,\
    \"statuses\":{\"1xx\":0,\"2xx\":0,\"3xx\":0,\"4xx\":0,\"5xx\":0},\"stopped\":0,\
    \"waited\":0}],\"intervals\":[],\"latency_us\":null,\"missed\":6,\
    \"options\":{\"fail-above\":\"0.5\",\"head\":true,\"rate\":18446744073709551615},\
    \"requests\":0,\"requests_per_second\":0,\"retried\":0,\"statuses\":{\"1xx\":0,\"2xx\":0,\
    \"3xx\":0,\"4xx\":0,\"5xx\":0},\"stopped\":0,\"urls\":[\"http://127.0.0.1:8080/a\",\
    \"http://[::1]:8081/b\"],\"version\":\"0.2.0\"}\n";

/// The same of six jobs, of which the one without a whole response has no latency.
const SIX: &str = "\
    {\"build\":\"proved\",\"bytes\":35,\"bytes_per_second\":70,\"connections\":{\"closed\":2,\"open\":2,\
    \"opened\":4,\"reused\":2,\"waited\":4,\"waited_us\":40800},\"elapsed_us\":500000,\
    \"failed\":2,\"faults\":{\"BadResponse\":0,\"Cancelled\":0,\"Cut\":1,\"Dial\":0,\
    \"Memory\":0,\"Read\":0,\"Refused\":0,\"Write\":0},\"good\":3,\"histogram\":[[100,1],[300,\
    1],[500,1],[700,1]],\"hosts\":[{\"bytes\":15,\"closed\":2,\"failed\":2,\
    \"faults\":{\"BadResponse\":0,\"Cancelled\":0,\"Cut\":1,\"Dial\":0,\"Memory\":0,\
    \"Read\":0,\"Refused\":0,\"Write\":0},\"good\":1,\"host\":\"127.0.0.1:8080\",\
    \"latency_us\":{\"max\":700,\"mean\":500,\"p50\":301,\"p90\":700,\"p99\":700,\
    \"p999\":700},\"open\":1,\"opened\":3,\"requests\":3,\"retried\":1,\"reused\":1,\
    \"statuses\":{\"1xx\":0,\"2xx\":1,\"3xx\":0,\"4xx\":0,\"5xx\":1},\"stopped\":0,\
    \"waited\":4},{\"bytes\":20,\"closed\":0,\"failed\":0,\"faults\":{\"BadResponse\":0,\
    \"Cancelled\":0,\"Cut\":0,\"Dial\":0,\"Memory\":0,\"Read\":0,\"Refused\":0,\"Write\":0},\
    \"good\":1,\"host\":\"[::1]:8081\",\"latency_us\":{\"max\":500,\"mean\":500,\"p50\":500,\
    \"p90\":500,\"p99\":500,\"p999\":500},\"open\":1,\"opened\":1,\"requests\":1,\
    \"retried\":0,\"reused\":1,\"statuses\":{\"1xx\":0,\"2xx\":1,\"3xx\":0,\"4xx\":0,\
    \"5xx\":0},\"stopped\":1,\"waited\":0}],\"intervals\":[{\"failed\":0,\"max_us\":300,\
    \"p50_us\":300,\"p99_us\":300,\"requests\":1,\"start_us\":0},{\"failed\":0,\"max_us\":500,\
    \"p50_us\":500,\"p99_us\":500,\"requests\":1,\"start_us\":100000},{\"failed\":2,\
    \"max_us\":700,\"p50_us\":700,\"p99_us\":700,\"requests\":2,\"start_us\":200000},\
    {\"failed\":0,\"max_us\":100,\"p50_us\":100,\"p99_us\":100,\"requests\":1,\
    \"start_us\":300000}],\"latency_us\":{\"max\":700,\"mean\":400,\"p50\":301,\"p90\":700,\
    \"p99\":700,\"p999\":700},\"missed\":6,\"options\":{},\"requests\":5,\
    \"requests_per_second\":10,\"retried\":1,\"statuses\":{\"1xx\":0,\"2xx\":2,\"3xx\":1,\
    \"4xx\":0,\"5xx\":1},\"stopped\":1,\"urls\":[\"http://127.0.0.1:8080/a\",\
    \"http://[::1]:8081/b\"],\"version\":\"0.2.0\"}\n";

#[test]
fn json_has_null_where_no_job_was_done(rt: HostRuntime) {
    let alloc = rt.alloc();
    let mut report = empty_report(alloc).expect(&rt, "memory");
    report
        .run
        .options
        .push(SaidOption {
            name: "rate",
            value: OptionValue::Number(u64::MAX),
        })
        .expect(&rt, "memory");
    report
        .run
        .options
        .push(SaidOption {
            name: "fail-above",
            value: OptionValue::Text(String::from_str(alloc, "0.5").expect(&rt, "memory")),
        })
        .expect(&rt, "memory");
    report
        .run
        .options
        .push(SaidOption {
            name: "head",
            value: OptionValue::Flag,
        })
        .expect(&rt, "memory");
    let text = json_text(alloc, &report).expect(&rt, "memory");
    check_eq(&rt, text.as_str(), EMPTY);
}

#[test]
fn json_has_what_workers_counted(rt: HostRuntime) {
    let alloc = rt.alloc();
    let report = LoadReport::new(
        alloc,
        two_hosts(alloc).expect(&rt, "memory"),
        &six_jobs(alloc).expect(&rt, "memory"),
    )
    .expect(&rt, "memory");
    let text = json_text(alloc, &report).expect(&rt, "memory");
    check_eq(&rt, text.as_str(), SIX);
}
