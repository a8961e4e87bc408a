//! The numbers of a load, its jobs, and what the program writes of it.

use crate::loads::FakeLoader;
use crate::networks::FakeNetwork;
use crate::running::{ROW, Row, Text, check, check_stopped, run, words_of};
use driver::DriverFault;
use load_run::{LoadError, LoadFault};

/// Words, and the numbers that a load is given: sites, jobs, workers, the limit of a host, of the
/// total, and how many are kept.
static NUMBERS: [(&str, [u32; 6]); 16] = [
    ("load", [2, 20, 4, 0, 0, 80]),
    ("load --sites 1", [1, 20, 4, 0, 0, 80]),
    ("load --sites 8", [8, 20, 4, 0, 0, 80]),
    ("load --jobs 1", [2, 1, 4, 0, 0, 4]),
    ("load --jobs=10000", [2, 10_000, 4, 0, 0, 40_000]),
    ("load --workers 1", [2, 20, 1, 0, 0, 80]),
    ("load --workers=64", [2, 20, 64, 0, 0, 80]),
    ("load --host-limit 0", [2, 20, 4, 0, 0, 80]),
    ("load --host-limit 65535", [2, 20, 4, 65_535, 0, 80]),
    ("load --total=0", [2, 20, 4, 0, 0, 80]),
    ("load --total 65535", [2, 20, 4, 0, 65_535, 80]),
    ("load --connects 1", [2, 20, 4, 0, 0, 1]),
    ("load --connects 65535", [2, 20, 4, 0, 0, 65_535]),
    ("load --connects 7 --jobs 3", [2, 3, 4, 0, 0, 7]),
    (
        "load --jobs 00000000000000000000000000003 --sites=01",
        [1, 3, 4, 0, 0, 12],
    ),
    (
        "load --connects 6 --total 5 --host-limit 4 --workers 3 --jobs 2 --sites 1",
        [1, 2, 3, 4, 5, 6],
    ),
];

#[test]
fn words_give_numbers(rt: HostRuntime) {
    for &(words, numbers) in &NUMBERS {
        let row = Row {
            name: words,
            words,
            output: Text::Whole("all\n"),
            ..ROW
        };
        let (_, loader) = check(&rt, &row);
        assert_eq!(rt; (loader.asked, loader.numbers), (1, numbers), "{words}");
    }
}

/// Words, and the file that the trace of a load is written to.
static TRACES: [(&str, Option<&str>); 5] = [
    ("load", None),
    ("load --trace a.trace", Some("a.trace")),
    ("load --trace=- --sites 3", Some("-")),
    ("load --total 1 --trace trace", Some("trace")),
    ("load --url http://a/ --trace a.trace", Some("a.trace")),
];

#[test]
fn words_give_a_file(rt: HostRuntime) {
    for (words, trace) in &TRACES {
        let row = Row {
            name: words,
            words,
            output: Text::Whole("all\n"),
            ..ROW
        };
        let (_, loader) = check(&rt, &row);
        let plan = loader.plan.as_ref().expect(&rt, "a plan");
        let named = plan.trace.as_ref().map(|name| name.as_str());
        assert_eq!(rt; named, *trace, "{words}");
    }
}

/// The faults of a load, and what is told of each.
static FAULTS: [(LoadFault, &str); 9] = [
    (
        LoadFault::Load(LoadError::Run(DriverFault::Memory)),
        "run: out of memory\n",
    ),
    (
        LoadFault::Load(LoadError::Run(DriverFault::BadWorkers)),
        "run: bad workers\n",
    ),
    (
        LoadFault::Load(LoadError::Run(DriverFault::Poll)),
        "run: poll failed\n",
    ),
    (
        LoadFault::Load(LoadError::Run(DriverFault::Doubled)),
        "run: job collected twice\n",
    ),
    (
        LoadFault::Load(LoadError::Run(DriverFault::Missing)),
        "run: job missing\n",
    ),
    (
        LoadFault::Load(LoadError::Run(DriverFault::Spawn)),
        "run: cannot start thread\n",
    ),
    (LoadFault::Listen, "run: cannot listen\n"),
    (LoadFault::Load(LoadError::Gather), "run: cannot gather\n"),
    (LoadFault::Write, "run: cannot write\n"),
];

#[test]
fn faults_are_told(rt: HostRuntime) {
    for &(fault, told) in &FAULTS {
        let row = Row {
            name: told,
            words: "load --jobs 3",
            load: Err(fault),
            errors: Text::Whole(told),
            status: 4,
            ..ROW
        };
        let _ = check(&rt, &row);
    }
}

#[test]
fn a_report_that_cannot_be_written(rt: HostRuntime) {
    let row = Row {
        name: "a report that cannot be written",
        words: "load",
        load: Ok("host 0\nall 1\n"),
        errors: Text::Whole("run: cannot write\n"),
        status: 4,
        ..ROW
    };
    for &takes_none in &[false, true] {
        check_stopped(&rt, &row, "host 0\nal", takes_none);
    }
}

/// What a load is asked for beside its six numbers, but for its addresses.
#[derive(Clone, Copy, Debug, PartialEq, Eq)]
struct Measured {
    /// How many URLs there are, and the site of the last.
    urls: (usize, u32),
    connections: Option<u32>,
    seconds: Option<u32>,
    warmup: u32,
    rate: Option<u32>,
    timeout: Option<u32>,
    fail_above: Option<u32>,
    /// HEAD, no reuse, statuses fail, JSON, no summary, no progress.
    flags: [bool; 6],
}

/// Words that ask for nothing beside JSON.
const JSON: Measured = Measured {
    urls: (0, 0),
    connections: None,
    seconds: None,
    warmup: 0,
    rate: None,
    timeout: None,
    fail_above: None,
    flags: [false, false, false, true, false, false],
};

/// Words of measured loads, the jobs and connections kept, and what else is asked for.
static MEASURED: [(&str, (u32, u32), Measured); 17] = [
    ("load --json", (20, 80), JSON),
    ("load --json --jobs 3", (3, 12), JSON),
    ("load --json --connects 5", (20, 5), JSON),
    (
        "load --json --url http://a/ --url http://A:80/b --jobs 4294967295",
        (4_294_967_295, 65_535),
        Measured {
            urls: (2, 0),
            timeout: Some(30),
            ..JSON
        },
    ),
    (
        "load --json --url http://a/ --url http://a:81/ --url http://b/",
        (20, 80),
        Measured {
            urls: (3, 2),
            timeout: Some(30),
            ..JSON
        },
    ),
    (
        "load --json --url http://a/ --timeout 1",
        (20, 80),
        Measured {
            urls: (1, 0),
            timeout: Some(1),
            ..JSON
        },
    ),
    (
        "load --json --timeout=3600",
        (20, 80),
        Measured {
            timeout: Some(3_600),
            ..JSON
        },
    ),
    (
        "load --json --connections 1024",
        (20, 80),
        Measured {
            connections: Some(1_024),
            ..JSON
        },
    ),
    (
        "load --json --seconds 86400",
        (20, 65_535),
        Measured {
            seconds: Some(86_400),
            ..JSON
        },
    ),
    (
        "load --json --warmup 0 --rate 1",
        (20, 80),
        Measured {
            rate: Some(1),
            ..JSON
        },
    ),
    (
        "load --json --warmup 3600 --rate 1000000",
        (20, 80),
        Measured {
            warmup: 3_600,
            rate: Some(1_000_000),
            ..JSON
        },
    ),
    (
        "load --json --fail-above 0",
        (20, 80),
        Measured {
            fail_above: Some(0),
            ..JSON
        },
    ),
    (
        "load --json --fail-above 0.5",
        (20, 80),
        Measured {
            fail_above: Some(50),
            ..JSON
        },
    ),
    (
        "load --json --fail-above 12.34",
        (20, 80),
        Measured {
            fail_above: Some(1_234),
            ..JSON
        },
    ),
    (
        "load --json --fail-above 100.00",
        (20, 80),
        Measured {
            fail_above: Some(10_000),
            ..JSON
        },
    ),
    (
        "load --head --fail --quiet",
        (20, 80),
        Measured {
            flags: [true, false, true, false, true, false],
            ..JSON
        },
    ),
    (
        "load --forbid-reuse --no-progress --resolve [::1]:80:[::1]",
        (20, 80),
        Measured {
            flags: [false, true, false, false, false, true],
            ..JSON
        },
    ),
];

#[test]
fn words_of_measured_loads(rt: HostRuntime) {
    for (words, (jobs, connects), asked) in &MEASURED {
        let row = Row {
            name: words,
            words,
            output: Text::Whole("all\n"),
            ..ROW
        };
        let (_, loader) = check(&rt, &row);
        let [_, given, _, _, _, kept] = loader.numbers;
        assert_eq!(rt; (given, kept), (*jobs, *connects), "{words}");
        let plan = loader.plan.as_ref().expect(&rt, "a plan");
        let (numbers, flags) = (plan.numbers, plan.flags);
        assert!(rt; !plan.is_plain, "{words}");
        let told = Measured {
            urls: (plan.urls.len(), plan.jobs.last().map_or(0, |job| job.site)),
            connections: numbers.connections,
            seconds: numbers.seconds,
            warmup: numbers.warmup,
            rate: numbers.rate,
            timeout: numbers.timeout,
            fail_above: numbers.fail_above,
            flags: [
                flags.head,
                flags.forbid_reuse,
                flags.fail,
                flags.json,
                flags.quiet,
                flags.no_progress,
            ],
        };
        assert_eq!(rt; told, *asked, "{words}");
    }
}

/// Values of `--resolve`, the host that each is for, and its address.
static RESOLVED: [(&str, &str, &str); 5] = [
    ("a:80:127.0.0.1", "a", "127.0.0.1:80"),
    ("b.example:65535:::1", "b.example", "[::1]:65535"),
    ("c:1:[::1]", "c", "[::1]:1"),
    ("[::2]:8080:10.0.0.1", "[::2]", "10.0.0.1:8080"),
    ("1.2.3.4:80:5.6.7.8", "1.2.3.4", "5.6.7.8:80"),
];

#[test]
fn addresses_are_given(rt: HostRuntime) {
    for (value, host, address) in &RESOLVED {
        let words = format!(in rt.alloc(); "load --resolve {value}").expect(&rt, "memory");
        let given = words_of(rt.alloc(), words.as_str()).expect(&rt, "memory");
        let network = FakeNetwork::new(rt.alloc(), None);
        let mut loader = FakeLoader::new(Ok("all\n"));
        let output = Vec::new(rt.alloc());
        let (status, _) = run(rt.alloc(), given, "", network, &mut loader, output);
        assert_eq!(rt; status, 0, "{value}");
        let plan = loader.plan.as_ref().expect(&rt, "a plan");
        let resolved = plan.resolved.first().expect(&rt, "an address");
        assert_eq!(rt; resolved.host.as_str(), *host, "{value}");
        let told = resolved.address;
        let told = format!(in rt.alloc(); "{told}").expect(&rt, "memory");
        assert_eq!(rt; told.as_str(), *address, "{value}");
    }
}
