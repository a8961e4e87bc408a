//! The number of threads that look up names.

use crate::load_sockets::running::words;
use cli::look_up_threads;
use std::alloc::AllocGlobal;

/// Command lines, and the number of threads for each.
static ROWS: [(&str, u32); 12] = [
    ("get http://127.0.0.1/", 0),
    ("get http://127.0.0.1:8080", 0),
    ("get http://[::1]:8080/", 0),
    ("get http://localhost/", 0),
    ("get HTTP://LOCALHOST:80/a", 0),
    ("get http://localhost.example/", 1),
    ("get http://7-zip.org/", 1),
    ("get http://1.2.3.4.example:80/", 1),
    ("get http://a?b http://127.0.0.1/ http://c#d", 2),
    ("get https://a/", 0),
    ("get --file urls", 16),
    ("load --url http://a/", 0),
];

#[test]
fn a_thread_looks_up_each_name_among_the_words(rt: HostRuntime) {
    for row in &ROWS {
        let (text, threads) = *row;
        let given = words(rt.alloc(), text).expect(&rt, "memory");
        assert_eq!(rt; look_up_threads(&given), threads, "{text}");
    }
}
