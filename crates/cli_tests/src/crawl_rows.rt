//! What a crawl writes: `get` of many URLs at once, of a file, and of bad ones.

use crate::checks::check_eq;
use crate::running::{ROW, Row, Text, check, check_stopped};
use crawl::NetworkFault;
use std::sync::atomic::Ordering;

/// Two URLs, of which the second ends first.
const TURNED: &str = "200 3 new http://127.0.0.1/bb\n200 2 reused http://127.0.0.1/a\n";

/// Words, what standard input gives, and the lines of the transfers.
static LINES: [(&str, &str, &str); 11] = [
    // lines come in the order in which transfers end
    (
        "get --parallel 2 http://127.0.0.1/a http://127.0.0.1/bb",
        "",
        TURNED,
    ),
    // or in the order of the URLs, if one is under way at once
    (
        "get --parallel 1 http://127.0.0.1/a http://127.0.0.1/bb",
        "",
        "200 2 new http://127.0.0.1/a\n200 3 reused http://127.0.0.1/bb\n",
    ),
    (
        "get --file - --parallel=256",
        "http://127.0.0.1/a\nhttp://127.0.0.1/bb\n",
        TURNED,
    ),
    // lines may end in CR and LF, and the last one may lack its line feed
    (
        "get --file - --parallel 2",
        "http://127.0.0.1/a\r\nhttp://127.0.0.1/bb\r\nhttp://127.0.0.1/c",
        "200 3 new http://127.0.0.1/bb\n200 2 reused http://127.0.0.1/a\n\
         200 2 reused http://127.0.0.1/c\n",
    ),
    // empty lines and comments are passed over
    (
        "get --file -",
        "\n# two\nhttp://127.0.0.1/a\n\r\n#http://127.0.0.1/c\nhttp://127.0.0.1/bb\n",
        "200 2 new http://127.0.0.1/a\n200 3 reused http://127.0.0.1/bb\n",
    ),
    // URLs among the words come first
    (
        "get --file - http://127.0.0.1/a",
        "http://127.0.0.1/bb\n",
        "200 2 new http://127.0.0.1/a\n200 3 reused http://127.0.0.1/bb\n",
    ),
    ("get --file urls", "http://127.0.0.1/no\n", TURNED_IN_FILE),
    (
        "get --head --host-limit 0 --total=65535 --max-life 9 --fresh http://[::1]/a",
        "",
        "200 0 new http://[::1]/a\n",
    ),
    (
        "get --resolve a.test:80:127.0.0.1 --resolve b.test:81:[::1] http://A.test/ \
         http://b.test:81/",
        "",
        "200 1 new http://A.test/\n200 1 new http://b.test:81/\n",
    ),
    (
        "get --json http://127.0.0.1/a\"\\b",
        "",
        "{\"url\": \"http://127.0.0.1/a\\\"\\\\b\", \"status\": 200, \"length\": 7, \
         \"reused\": false, \"retried\": false, \"fault\": null, \"reason\": null, \
         \"waited_us\": 1, \"dialled_us\": 2, \"first_byte_us\": 3, \"whole_us\": 4}\n",
    ),
    // a reused connection was open as it was leased
    (
        "get --json --file - http://127.0.0.1/a",
        "http://127.0.0.1/again\n",
        "{\"url\": \"http://127.0.0.1/a\", \"status\": 200, \"length\": 2, \
         \"reused\": false, \"retried\": false, \"fault\": null, \"reason\": null, \
         \"waited_us\": 1, \"dialled_us\": 2, \"first_byte_us\": 3, \"whole_us\": 4}\n\
         {\"url\": \"http://127.0.0.1/again\", \"status\": 200, \"length\": 6, \
         \"reused\": true, \"retried\": true, \"fault\": null, \"reason\": null, \
         \"waited_us\": 1, \"dialled_us\": 1, \"first_byte_us\": 3, \"whole_us\": 4}\n",
    ),
];

/// What comes of the file `urls`.
const TURNED_IN_FILE: &str = "200 2 new http://127.0.0.1/f\n200 3 reused http://127.0.0.1/gg\n";

#[test]
fn a_crawl_tells_of_responses(rt: HostRuntime) {
    for &(words, input, lines) in &LINES {
        let row = Row {
            name: words,
            words,
            script: input,
            output: Text::Whole(lines),
            ..ROW
        };
        let _ = check(&rt, &row);
    }
}

/// Words, what standard input gives, the lines, what is told of them, and the status.
static FAULTS: [(&str, &str, &str, &str, u8); 12] = [
    (
        "get --parallel 2 http://127.0.0.1/dial http://127.0.0.1/bb",
        "",
        "200 3 new http://127.0.0.1/bb\nDial http://127.0.0.1/dial\n",
        "run: 1 of 2 failed\n",
        4,
    ),
    // a bad URL among the words has its line in its turn
    (
        "get --skip-bad http://127.0.0.1/a ftp://x http://127.0.0.1/bb http://c.test:x/",
        "",
        "200 2 new http://127.0.0.1/a\nBadUrl ftp://x\n200 3 reused http://127.0.0.1/bb\n\
         BadUrl http://c.test:x/\n",
        "run: 2 of 4 failed\n",
        4,
    ),
    (
        "get --skip-bad --file -",
        "http://127.0.0.1/a\nhttp://127.0.0.1/\u{1b}[31m\n",
        "200 2 new http://127.0.0.1/a\nBadUrl http://127.0.0.1/\\x1b[31m\n",
        "run: 1 of 2 failed\n",
        4,
    ),
    // a stalled transfer does not delay the others
    (
        "get --skip-bad --parallel 2 http://127.0.0.1/late ftp://x http://127.0.0.1/a",
        "",
        "BadUrl ftp://x\n200 2 new http://127.0.0.1/a\n200 5 reused http://127.0.0.1/late\n",
        "run: 1 of 3 failed\n",
        4,
    ),
    // with one transfer in flight at a time, lines are in the order of the URLs
    (
        "get --skip-bad http://127.0.0.1/late ftp://x http://127.0.0.1/a",
        "",
        "200 5 new http://127.0.0.1/late\nBadUrl ftp://x\n200 2 reused http://127.0.0.1/a\n",
        "run: 1 of 3 failed\n",
        4,
    ),
    (
        "get --file - http://127.0.0.1/late",
        "http://127.0.0.1/a\n",
        "200 5 new http://127.0.0.1/late\n200 2 reused http://127.0.0.1/a\n",
        "",
        0,
    ),
    // without the flag a bad URL ends the crawl, once all before it have ended
    (
        "get --file -",
        "http://127.0.0.1/late\nno URL\n",
        "200 5 new http://127.0.0.1/late\n",
        "line 2: bad URL\n",
        2,
    ),
    (
        "get --file -",
        "http://127.0.0.1/a\n\nno URL\nhttp://127.0.0.1/bb\n",
        "200 2 new http://127.0.0.1/a\n",
        "line 3: bad URL\n",
        2,
    ),
    (
        "get --json --parallel 1 http://127.0.0.1/cut",
        "",
        "{\"url\": \"http://127.0.0.1/cut\", \"status\": null, \"length\": null, \
         \"reused\": null, \"retried\": false, \"fault\": \"Cut\", \"reason\": null, \
         \"waited_us\": 1, \"dialled_us\": 2, \"first_byte_us\": null, \"whole_us\": 4}\n",
        "run: 1 of 1 failed\n",
        4,
    ),
    // the reason of an unknown host is told in JSON
    (
        "get --json http://gone.test/a",
        "",
        "{\"url\": \"http://gone.test/a\", \"status\": null, \"length\": null, \
         \"reused\": null, \"retried\": false, \"fault\": \"Dial\", \
         \"reason\": \"unknown host\", \"waited_us\": 1, \"dialled_us\": null, \
         \"first_byte_us\": null, \"whole_us\": 4}\n",
        "run: 1 of 1 failed\n",
        4,
    ),
    // a fault's line tells whether the request was tried once more
    (
        "get --parallel 1 http://127.0.0.1/again/dial http://127.0.0.1/again/reset",
        "",
        "Dial retried http://127.0.0.1/again/dial\nRead retried http://127.0.0.1/again/reset\n",
        "run: 2 of 2 failed\n",
        4,
    ),
    // a status of 400 and above fails with the flag alone
    (
        "get --fail http://127.0.0.1/404 http://127.0.0.1/a",
        "",
        "404 4 new http://127.0.0.1/404\n200 2 reused http://127.0.0.1/a\n",
        "run: 1 of 2 failed\n",
        4,
    ),
];

/// Words, and the JSON line of a URL whose connection failed.
static REASONS: [(&str, &str); 6] = [
    (
        "get --json http://a.test/dial",
        "{\"url\": \"http://a.test/dial\", \"status\": null, \"length\": null, \
         \"reused\": null, \"retried\": false, \"fault\": \"Dial\", \"reason\": null, \
         \"waited_us\": 1, \"dialled_us\": null, \"first_byte_us\": null, \"whole_us\": 4}\n",
    ),
    (
        "get --json http://a.test/dial/refused",
        "{\"url\": \"http://a.test/dial/refused\", \"status\": null, \"length\": null, \
         \"reused\": null, \"retried\": false, \"fault\": \"Dial\", \"reason\": \"refused\", \
         \"waited_us\": 1, \"dialled_us\": null, \"first_byte_us\": null, \"whole_us\": 4}\n",
    ),
    (
        "get --json http://a.test/dial/unreachable",
        "{\"url\": \"http://a.test/dial/unreachable\", \"status\": null, \"length\": null, \
         \"reused\": null, \"retried\": false, \"fault\": \"Dial\", \"reason\": \"unreachable\", \
         \"waited_us\": 1, \"dialled_us\": null, \"first_byte_us\": null, \"whole_us\": 4}\n",
    ),
    (
        "get --json http://a.test/dial/late",
        "{\"url\": \"http://a.test/dial/late\", \"status\": null, \"length\": null, \
         \"reused\": null, \"retried\": false, \"fault\": \"Dial\", \"reason\": \"timed out\", \
         \"waited_us\": 1, \"dialled_us\": null, \"first_byte_us\": null, \"whole_us\": 4}\n",
    ),
    (
        "get --json http://a.test/again/reset",
        "{\"url\": \"http://a.test/again/reset\", \"status\": null, \"length\": null, \
         \"reused\": null, \"retried\": true, \"fault\": \"Read\", \"reason\": \"reset\", \
         \"waited_us\": 1, \"dialled_us\": 2, \"first_byte_us\": null, \"whole_us\": 4}\n",
    ),
    (
        "get --json http://a.test/again/cancelled",
        "{\"url\": \"http://a.test/again/cancelled\", \"status\": null, \"length\": null, \
         \"reused\": null, \"retried\": true, \"fault\": \"Cancelled\", \"reason\": null, \
         \"waited_us\": 1, \"dialled_us\": 2, \"first_byte_us\": null, \"whole_us\": 4}\n",
    ),
];

#[test]
fn a_json_line_tells_why_a_connection_failed(rt: HostRuntime) {
    for told in &REASONS {
        let (words, line) = *told;
        let row = Row {
            name: words,
            words,
            output: Text::Whole(line),
            errors: Text::Whole("run: 1 of 1 failed\n"),
            status: 4,
            ..ROW
        };
        let _ = check(&rt, &row);
    }
}

#[test]
fn a_crawl_tells_of_faults(rt: HostRuntime) {
    for &(words, input, lines, told, status) in &FAULTS {
        let row = Row {
            name: words,
            words,
            script: input,
            output: Text::Whole(lines),
            errors: Text::Whole(told),
            status,
            ..ROW
        };
        let _ = check(&rt, &row);
    }
}

// A bad URL ends a window, so names come again in a later one.
#[test]
fn a_crawl_looks_a_name_up_once(rt: HostRuntime) {
    let row = Row {
        name: "two names in three windows",
        words: "get --skip-bad --file - http://a.test/a",
        script: "http://gone.test/b\nno URL\nhttp://a.test:81/c\nno URL\nhttp://gone.test/d\n",
        output: Text::Whole(
            "200 2 new http://a.test/a\nDial http://gone.test/b\nBadUrl no URL\n\
             200 2 new http://a.test:81/c\nBadUrl no URL\nDial http://gone.test/d\n",
        ),
        errors: Text::Whole("run: 4 of 6 failed\n"),
        status: 4,
        ..ROW
    };
    let (network, _) = check(&rt, &row);
    check_eq(&rt, network.names.lookups.load(Ordering::SeqCst), 2);
}

#[test]
fn a_network_that_cannot_be_crawled(rt: HostRuntime) {
    let row = Row {
        name: "no descriptors",
        words: "get --parallel 2 http://localhost/",
        network: Some(NetworkFault::Descriptors),
        errors: Text::Whole("run: too few descriptors\n"),
        status: 4,
        ..ROW
    };
    let _ = check(&rt, &row);
}

#[test]
fn a_line_of_a_crawl_that_cannot_be_written(rt: HostRuntime) {
    let row = Row {
        name: "a line that cannot be written",
        words: "get --parallel 3 http://[::1]/a http://[::1]/bb http://[::1]/ccc",
        errors: Text::Whole("run: cannot write\n"),
        status: 4,
        ..ROW
    };
    check_stopped(&rt, &row, "200 3 new http://[::1]/bb\n200 2 reu", false);
}
