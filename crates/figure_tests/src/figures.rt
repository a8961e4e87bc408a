//! What workers of a load count: outcomes, intervals, and joined figures. The JSON of
//! `load_texts.rt` has the figures of six jobs.

use crate::checks::check_eq;
use commands::Build;
use exchange::{Answer, Done, Fault};
use load_figures::{Figures, Outcome, outcome_of};
use load_report::{Connections, HostRun, LoadReport, LoadRun, fails_above};
use persistence::{Facts, Framing, Version};
use std::alloc::{AllocError, Global};
use std::test::Fail;

/// A response without a body.
pub(crate) const ANSWER: Answer = Answer {
    status: 200,
    body_len: 0,
    facts: Facts {
        version: Version::V11,
        close: false,
        keep_alive: false,
        request_close: false,
        framing: Framing::Counted,
        both_lengths: false,
        upgraded: false,
        whole: true,
        surplus: false,
    },
    reused: false,
    retried: false,
};

/// How a job ends.
#[derive(Clone, Copy)]
enum End {
    /// With a whole response of that status.
    Status(u16),
    /// Without one.
    Fault(Fault),
}

/// The end as a transfer has it.
fn done_of(end: End) -> Done {
    match end {
        End::Status(status) => Done::Good(Answer { status, ..ANSWER }),
        End::Fault(fault) => Done::Bad(fault),
    }
}

/// An end, the microseconds that it took, the time limit, whether statuses fail, and the outcome.
/// Worked by hand from the rules.
static OUTCOMES: [(End, u64, u64, bool, Outcome); 13] = [
    (End::Status(200), 10, 0, false, Outcome::Good),
    (End::Status(200), 10, 5, true, Outcome::Good),
    (End::Status(399), 10, 0, true, Outcome::Good),
    (End::Status(400), 10, 0, true, Outcome::Failed),
    (End::Status(503), 10, 0, true, Outcome::Failed),
    (End::Status(503), 10, 0, false, Outcome::Good),
    (End::Fault(Fault::Dial), 10, 0, false, Outcome::Failed),
    (End::Fault(Fault::Cut), 10, 1_000_000, true, Outcome::Failed),
    (End::Fault(Fault::Memory), 10, 0, false, Outcome::Failed),
    // Without a time limit a job is cancelled as the load ends.
    (
        End::Fault(Fault::Cancelled),
        999_999_999,
        0,
        false,
        Outcome::Stopped,
    ),
    (
        End::Fault(Fault::Cancelled),
        999_999,
        1_000_000,
        false,
        Outcome::Stopped,
    ),
    (
        End::Fault(Fault::Cancelled),
        1_000_000,
        1_000_000,
        false,
        Outcome::Failed,
    ),
    (
        End::Fault(Fault::Cancelled),
        1_000_001,
        1_000_000,
        true,
        Outcome::Failed,
    ),
];

#[test]
fn a_job_is_good_or_failed_or_stopped(rt: HostRuntime) {
    for (end, took_us, timeout_us, fails_statuses, outcome) in &OUTCOMES {
        let done = done_of(*end);
        let told = outcome_of(&done, *took_us, *timeout_us, *fails_statuses);
        assert_eq!(rt;
            told,
            *outcome,
            "{done:?} {took_us} {timeout_us} {fails_statuses}"
        );
    }
}

/// A job: its host, its end, its outcome, when it ended, and its latency.
type Job = (u32, Done, Outcome, u64, u64);

/// A response with that status and body.
const fn answer(status: u16, body_len: u64, reused: bool, retried: bool) -> Done {
    Done::Good(Answer {
        status,
        body_len,
        reused,
        retried,
        ..ANSWER
    })
}

/// Six jobs, the last of a host that is not there. The latencies that count are 100, 300, 500 and
/// 700, since only whole responses have one; 300 shares its bucket with 301.
fn jobs() -> [Job; 6] {
    [
        (0, answer(200, 10, false, false), Outcome::Good, 50_000, 300),
        (1, answer(200, 20, true, false), Outcome::Good, 150_000, 500),
        (0, answer(503, 5, true, true), Outcome::Failed, 250_000, 700),
        (0, Done::Bad(Fault::Cut), Outcome::Failed, 250_001, 900),
        (1, Done::Bad(Fault::Cancelled), Outcome::Stopped, 260_000, 1),
        (7, answer(302, 0, false, false), Outcome::Good, 349_999, 100),
    ]
}

/// A run of half a second over two hosts.
pub(crate) fn two_hosts(alloc: Global) -> Result<LoadRun, AllocError> {
    let mut urls = Vec::new(alloc);
    urls.push(String::from_str(alloc, "http://127.0.0.1:8080/a")?)?;
    urls.push(String::from_str(alloc, "http://[::1]:8081/b")?)?;
    let mut hosts = Vec::new(alloc);
    hosts.push(HostRun {
        host: String::from_str(alloc, "127.0.0.1:8080")?,
        connections: Connections {
            opened: 3,
            reused: 1,
            closed: 2,
            waited: 4,
            open: 1,
        },
    })?;
    hosts.push(HostRun {
        host: String::from_str(alloc, "[::1]:8081")?,
        connections: Connections {
            opened: 1,
            reused: 1,
            closed: 0,
            waited: 0,
            open: 1,
        },
    })?;
    Ok(LoadRun {
        version: "0.2.0",
        build: Build::Proved,
        urls,
        options: Vec::new(alloc),
        elapsed_us: 500_000,
        missed: 6,
        waited_us: 40_800,
        hosts,
    })
}

/// The figures of the six jobs, each of which was counted by one of two workers.
pub(crate) fn six_jobs(alloc: Global) -> Result<Figures, AllocError> {
    let mut figures = Figures::new(alloc, 2)?;
    let mut other = Figures::new(alloc, 2)?;
    for (number, job) in jobs().iter().enumerate() {
        let (host, done, outcome, ended_us, latency_us) = job;
        if number % 2 == 0 {
            figures.count(*host, done, *outcome, *ended_us, *latency_us);
        } else {
            other.count(*host, done, *outcome, *ended_us, *latency_us);
        }
    }
    figures.join(&other);
    Ok(figures)
}

/// When jobs ended that two workers counted, how long the intervals are then, and how many jobs
/// some of them have, by their place.
struct Folding {
    ends: &'static [u64],
    others: &'static [u64],
    interval_us: u64,
    len: usize,
    requests: &'static [(usize, u64)],
}

/// Worked by hand. The last interval that is 100 ms long ends after a minute.
static FOLDINGS: [Folding; 6] = [
    Folding {
        ends: &[0, 150_000, 59_999_999],
        others: &[],
        interval_us: 100_000,
        len: 600,
        requests: &[(0, 1), (1, 1), (599, 1)],
    },
    Folding {
        ends: &[0, 150_000, 59_999_999, 60_000_000],
        others: &[],
        interval_us: 200_000,
        len: 301,
        requests: &[(0, 2), (1, 0), (299, 1), (300, 1)],
    },
    Folding {
        ends: &[0, 250_000],
        others: &[60_000_000, 110_000_000],
        interval_us: 200_000,
        len: 551,
        requests: &[(0, 1), (1, 1), (300, 1), (550, 1)],
    },
    Folding {
        ends: &[250_000, 60_000_000],
        others: &[150_000, 250_000, 59_900_000],
        interval_us: 200_000,
        len: 301,
        requests: &[(0, 1), (1, 2), (299, 1), (300, 1)],
    },
    // Twice two become one.
    Folding {
        ends: &[50_000, 350_000, 450_000, 239_999_999],
        others: &[399_999],
        interval_us: 400_000,
        len: 600,
        requests: &[(0, 3), (1, 1), (599, 1)],
    },
    Folding {
        ends: &[1, u64::MAX],
        others: &[2],
        interval_us: 54_975_581_388_800_000,
        len: 336,
        requests: &[(0, 2), (335, 1)],
    },
];

/// The figures of good jobs that ended then, each after 100 microseconds.
fn ended_at(alloc: Global, ends: &[u64]) -> Result<Figures, AllocError> {
    let mut figures = Figures::new(alloc, 1)?;
    for ended_us in ends {
        figures.count(0, &Done::Good(ANSWER), Outcome::Good, *ended_us, 100);
    }
    Ok(figures)
}

#[test]
fn two_intervals_become_one_past_the_last(rt: HostRuntime) {
    let alloc = rt.alloc();
    for row in &FOLDINGS {
        let mut figures = ended_at(alloc, row.ends).expect(&rt, "memory");
        figures.join(&ended_at(alloc, row.others).expect(&rt, "memory"));
        let report = LoadReport::new(
            alloc,
            two_hosts(alloc).expect(&rt, "memory"),
            &figures,
        ).expect(&rt, "memory");
        check_eq(&rt, report.interval_us, row.interval_us);
        check_eq(&rt, report.intervals.len(), row.len);
        for (place, requests) in row.requests {
            let interval = report.intervals.get(*place).copied();
            let told = interval.map(|interval| interval.requests);
            assert_eq!(rt; told, Some(*requests), "{place}");
        }
    }
}

/// Jobs done, those of them that failed, hundredths of a percent, and whether more failed.
static FAILING: [(u64, u64, u32, bool); 9] = [
    (0, 0, 0, false),
    (10, 0, 0, false),
    (1000, 1, 0, true),
    (100, 1, 100, false),
    (100, 2, 100, true),
    (10_000, 1, 1, false),
    (9_999, 1, 1, true),
    (u64::MAX, 1 << 63, 5000, true),
    (u64::MAX, u64::MAX, 10_000, false),
];

#[test]
fn more_than_a_share_of_jobs_failed(rt: HostRuntime) {
    let alloc = rt.alloc();
    let mut report = LoadReport::new(
        alloc,
        two_hosts(alloc).expect(&rt, "memory"),
        &Figures::new(alloc, 2).expect(&rt, "memory"),
    )
    .expect(&rt, "memory");
    for (requests, failed, hundredths, more) in &FAILING {
        report.jobs.requests = *requests;
        report.jobs.failed = *failed;
        assert_eq!(rt;
            fails_above(&report, *hundredths),
            *more,
            "{requests} {failed}"
        );
    }
}

/// Passes whichever allocation fails: figures that were made take no more memory.
#[test]
fn an_allocation_failure_refuses_figures_alone(rt: HostRuntime) -> Result<(), Fail> {
    let alloc = rt.alloc();
    let mut figures = match Figures::new(alloc, 1) {
        Ok(made) => made,
        Err(_) => Figures::new(alloc, 1)?,
    };
    figures.count(0, &Done::Good(ANSWER), Outcome::Good, 7, 7);
    check_eq(&rt, figures.all().good, 1);
    Ok(())
}
