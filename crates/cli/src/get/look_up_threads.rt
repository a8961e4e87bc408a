//! How many threads look up names.

use command_line::Words;
use std::net::Ipv4Addr;

/// Maximum number of threads that look up names.
const MOST_THREADS: u32 = 16;

/// Returns the number of threads that may look up names for a program with these words: none
/// unless they begin with `get`, and name a host that is neither an address nor `localhost`, or a
/// file. Without threads, the thread that asks for a name looks it up.
pub fn look_up_threads(words: &Words) -> u32 {
    let Words::Given(words) = words else {
        return 0;
    };
    let mut threads = 0;
    for word in words.iter().skip(1) {
        threads = more_threads(word.as_str(), threads);
    }
    match words.get(1) {
        Some(first) if first.as_str() == "get" => threads,
        _ => 0,
    }
}

// Returns the number of threads with those for that word.
fn more_threads(word: &str, threads: u32) -> u32 {
    if word.starts_with("--file") {
        MOST_THREADS
    } else if names_host(word) {
        threads.saturating_add(1).min(MOST_THREADS)
    } else {
        threads
    }
}

// True if a word is an `http` URL whose host is neither an address nor `localhost`.
fn names_host(word: &str) -> bool {
    let Some((scheme, rest)) = word.split_once("://") else {
        return false;
    };
    let host = match rest.split_once(|c| c == '/' || c == ':' || c == '?' || c == '#') {
        Some((host, _)) => host,
        None => rest,
    };
    let is_address = host.starts_with('[') || Ipv4Addr::parse_ascii(host.as_bytes()).is_ok();
    scheme.eq_ignore_ascii_case("http") && !is_address && !host.eq_ignore_ascii_case("localhost")
}
