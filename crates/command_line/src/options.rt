//! The options and operands of the commands, a row each.
//!
//! `tools/options` makes the option lists of the man page, the shell completions and the tables of
//! docs/command-line.md from these rows and their comments.

ghost use Rattle.std.specs.Prelude.{◌≡◌, map};
ghost use Rattle.command_line.specs.OptionTable.{audit_options, facts_of, get_options};
ghost use Rattle.command_line.specs.OptionTable.{load_options, script_options};

/// Kind of an option, by the value that follows it.
#[derive(Clone, Copy)]
pub enum Takes {
    /// Nothing: the option is a flag.
    Nothing,
    /// A text, for example the name of a file.
    Text,
    /// A text. The option may be repeated.
    Texts,
    /// Decimal digits.
    Number,
    /// Seconds: decimal digits, or digits and a unit: `s`, `m` (minutes) or `h` (hours).
    Seconds,
    /// A percentage with at most two decimals. Its number is in hundredths.
    Percent,
    /// No option: the row is an operand, a word that follows no option.
    Operand,
    /// No option: the row is an operand that may be repeated.
    Operands,
}

/// An option or operand of a command.
#[derive(Clone, Copy)]
pub struct OptionRow {
    /// Long name without the dashes; of an operand, its name in help.
    pub name: &'static str,
    /// Short name.
    pub short: Option<char>,
    pub takes: Takes,
    /// Name of the value in help.
    pub value: &'static str,
    /// Least number.
    pub least: u64,
    /// Greatest number.
    pub greatest: u64,
    /// True if a load with this option still prints only its report.
    pub is_plain: bool,
    /// Line in help.
    pub help: &'static str,
}

/// A flag without a name.
const FLAG: OptionRow = OptionRow {
    name: "",
    short: None,
    takes: Takes::Nothing,
    value: "",
    least: 0,
    greatest: 0,
    is_plain: false,
    help: "",
};

/// A flag: name, help.
macro_rules! flag {
    ($name:literal, $help:literal) => {
        OptionRow { name: $name, help: $help, ..FLAG }
    };
}

/// An option with a text: name, name of the value, help.
macro_rules! text {
    ($name:literal, $value:literal, $help:literal) => {
        OptionRow { name: $name, takes: Takes::Text, value: $value, help: $help, ..FLAG }
    };
}

/// An option with a number: name, range, default, help.
macro_rules! number {
    ($name:literal, $least:literal to $greatest:literal, $default:literal, $help:literal) => {
        OptionRow {
            name: $name,
            takes: Takes::Number,
            value: "NUMBER",
            least: $least,
            greatest: $greatest,
            help: concat!($help, ", ", $least, " to ", $greatest, " [default: ", $default, "]"),
            ..FLAG
        }
    };
    ($name:literal, up to $greatest:literal, $default:literal, $help:literal) => {
        OptionRow {
            name: $name,
            takes: Takes::Number,
            value: "NUMBER",
            greatest: $greatest,
            help: concat!($help, ", up to ", $greatest, " [default: ", $default, "]"),
            ..FLAG
        }
    };
    ($name:literal, any, $default:literal, $help:literal) => {
        OptionRow {
            name: $name,
            takes: Takes::Number,
            value: "NUMBER",
            greatest: 18446744073709551615,
            help: concat!($help, " [default: ", $default, "]"),
            ..FLAG
        }
    };
}

/// An option with a number of seconds: name, range, default, help.
macro_rules! seconds {
    ($($row:tt)*) => {
        OptionRow { takes: Takes::Seconds, value: "SECONDS", ..number!($($row)*) }
    };
}

/// Sends HEAD instead of GET.
pub const HEAD: OptionRow = flag!("head", "Send HEAD instead of GET");

/// Counts a status of 400 or above as failed. The line or report of the response stays the same.
pub const FAIL: OptionRow = flag!("fail", "Count a status of 400 or above as failed");

/// Maximum number of open connections to a host. 0 is no limit.
pub const HOST_LIMIT: OptionRow = OptionRow {
    is_plain: true,
    ..number!("host-limit", up to 65535, "no limit", "Maximum open connections to a host")
};

/// Maximum number of open connections in total. 0 is no limit.
pub const TOTAL: OptionRow = OptionRow {
    is_plain: true,
    ..number!("total", up to 65535, "no limit", "Maximum open connections in total")
};

/// Connects to that address for that host and port. IPv6 addresses may be in brackets. May be
/// repeated.
pub const RESOLVE: OptionRow = OptionRow {
    takes: Takes::Texts,
    ..text!(
        "resolve",
        "HOST:PORT:ADDRESS",
        "Connect to this address for HOST:PORT; may be repeated"
    )
};

/// An `http` URL. Without `--file`, `get` needs at least one.
pub const URLS: OptionRow = OptionRow {
    name: "URL",
    takes: Takes::Operands,
    help: "The http URLs to request",
    ..FLAG
};

/// Maximum idle time of a reused connection.
pub const MAX_AGE: OptionRow = seconds!(
    "max-age",
    any,
    118,
    "Reuse connections idle for at most this long"
);

/// Cancels a transfer after this long. Time for which the program was suspended, or its output
/// blocked, does not count.
pub const GET_TIMEOUT: OptionRow =
    seconds!("timeout", 1 to 3600, 30, "Cancel a transfer after this long");

/// Reads more URLs from a file, one per line. `-` is standard input.
pub const FILE: OptionRow = text!(
    "file",
    "FILE",
    "Read more URLs from a file, one per line; - for standard input"
);

/// Maximum number of transfers in flight. Above 1, lines are in the order in which transfers end.
pub const PARALLEL: OptionRow = OptionRow {
    short: Some('P'),
    ..number!("parallel", 1 to 256, 1, "Transfers in flight at once")
};

/// Maximum lifetime of a reused connection. 0 is no limit.
pub const MAX_LIFE: OptionRow = seconds!(
    "max-life",
    any,
    "no limit",
    "Reuse connections at most this old"
);

/// Opens a new connection for each URL. The request does not say so.
pub const FRESH: OptionRow = flag!("fresh", "Open a new connection for each URL");

/// Writes the line `BadUrl URL` for a bad URL, counts it as failed, and continues. Otherwise a bad
/// URL ends `get` with status 2.
pub const SKIP_BAD: OptionRow = flag!("skip-bad", "Report a bad URL in its line; continue");

/// Writes a JSON object for each URL instead of its line.
pub const GET_JSON: OptionRow = flag!(
    "json",
    "Print a JSON object for each URL instead of its line"
);

static GET: [OptionRow; 14] = [
    HEAD,
    MAX_AGE,
    GET_TIMEOUT,
    FILE,
    PARALLEL,
    HOST_LIMIT,
    TOTAL,
    MAX_LIFE,
    RESOLVE,
    FRESH,
    SKIP_BAD,
    FAIL,
    GET_JSON,
    URLS,
];

/// Returns the options and operands of `get`.
pub(crate) fn get_options() -> &'static [OptionRow]
    ensures { map facts_of result.now ≡ get_options }
{
    &GET
}

/// Number of sites, which are ports of the built-in server. Not with URLs.
pub const SITES: OptionRow = OptionRow {
    is_plain: true,
    ..number!("sites", 1 to 8, 2, "Sites of the built-in server")
};

/// Number of requests. Without URLs and `--seconds` at most 10,000.
pub const JOBS: OptionRow = OptionRow {
    short: Some('n'),
    is_plain: true,
    help: "Number of requests, 1 to 10000, or more with URLs or --seconds [default: 20]",
    ..number!("jobs", 1 to 4294967295, 20, "Number of requests")
};

/// Number of threads.
pub const WORKERS: OptionRow = OptionRow {
    short: Some('t'),
    is_plain: true,
    ..number!("workers", 1 to 64, 4, "Number of threads")
};

/// Maximum number of idle connections. The default is at most 65,535, and 65,535 with `--seconds`.
pub const CONNECTS: OptionRow = OptionRow {
    is_plain: true,
    ..number!("connects", 1 to 65535, "4 times the jobs", "Maximum idle connections")
};

/// Writes a trace of the connections to that file, for `curlpool audit`.
pub const TRACE: OptionRow = OptionRow {
    is_plain: true,
    ..text!(
        "trace",
        "FILE",
        "Write a trace of the connections to a file, for curlpool audit"
    )
};

/// Draws requests, failures and latencies over time into that file, as SVG. The file is created
/// before the first request.
pub const LOAD_PICTURE: OptionRow = text!(
    "picture",
    "FILE",
    "Draw requests, failures and latencies over time as SVG"
);

/// Requests this `http` URL. May be repeated: up to 8 URLs, with those given as arguments, are used
/// round robin. Not with `--sites`.
pub const URL: OptionRow = OptionRow {
    takes: Takes::Texts,
    ..text!(
        "url",
        "URL",
        "An http URL to request; repeat for up to 8, used in turn"
    )
};

/// Number of requests in flight, shared by the threads.
pub const CONNECTIONS: OptionRow = OptionRow {
    short: Some('c'),
    ..number!("connections", 1 to 1024, "one per thread", "Requests in flight at once")
};

/// Duration of the load. Not with `--jobs`.
pub const SECONDS: OptionRow = OptionRow {
    short: Some('d'),
    ..seconds!(
        "seconds",
        1 to 86400,
        "until the last request",
        "Duration of the load, not with --jobs"
    )
};

/// Warm-up before that. Requests that end in it count only in the cache's own figures.
pub const WARMUP: OptionRow =
    seconds!("warmup", up to 3600, 0, "Warm-up before that, excluded from the figures");

/// Requests per second. Job K is due K / NUMBER seconds after the start, and its latency counts
/// from then.
pub const RATE: OptionRow = OptionRow {
    short: Some('R'),
    ..number!("rate", 1 to 1000000, "as fast as possible", "Requests per second")
};

/// Cancels a request after this long. It counts as failed.
pub const LOAD_TIMEOUT: OptionRow =
    seconds!("timeout", 1 to 3600, "30 with URLs", "Cancel a request after this long");

/// Exits with status 5 if a larger percentage of the requests fails: 0 to 100, with at most two
/// decimals.
pub const FAIL_ABOVE: OptionRow = OptionRow {
    takes: Takes::Percent,
    greatest: 10_000,
    ..text!(
        "fail-above",
        "PERCENT",
        "Exit with status 5 if over PERCENT of requests fail"
    )
};

/// Sends `Connection: close` with each request, and does not reuse its connection.
pub const FORBID_REUSE: OptionRow = flag!("forbid-reuse", "Reuse no connection");

/// Prints one JSON object instead of the report.
pub const LOAD_JSON: OptionRow = flag!("json", "Print one JSON object instead of the report");

/// Prints neither summary nor progress.
pub const QUIET: OptionRow = flag!("quiet", "Print neither summary nor progress");

/// Prints no progress on a terminal.
pub const NO_PROGRESS: OptionRow = flag!("no-progress", "Print no progress");

static LOAD: [OptionRow; 23] = [
    SITES,
    JOBS,
    WORKERS,
    HOST_LIMIT,
    TOTAL,
    CONNECTS,
    TRACE,
    LOAD_PICTURE,
    URL,
    RESOLVE,
    CONNECTIONS,
    SECONDS,
    WARMUP,
    RATE,
    LOAD_TIMEOUT,
    FAIL_ABOVE,
    HEAD,
    FORBID_REUSE,
    FAIL,
    LOAD_JSON,
    QUIET,
    NO_PROGRESS,
    URLS,
];

/// Returns the options and operands of `load`.
pub(crate) fn load_options() -> &'static [OptionRow]
    ensures { map facts_of result.now ≡ load_options }
{
    &LOAD
}

/// Prints a trace for `curlpool audit`: each command but `limit`, followed by its effects.
pub const SCRIPT_TRACE: OptionRow = flag!(
    "trace",
    "Print a trace: each command, followed by its effects"
);

/// Draws the connections over time into that file, as SVG. The file is created before the script is
/// read.
pub const SCRIPT_PICTURE: OptionRow = text!(
    "picture",
    "FILE",
    "Draw the connections over time as SVG"
);

/// The script. Without it, or with `-`, the script is standard input.
pub const SCRIPT_FILE: OptionRow = OptionRow {
    name: "FILE",
    takes: Takes::Operand,
    help: "The script; standard input if it is - or left out",
    ..FLAG
};

static SCRIPT: [OptionRow; 3] = [SCRIPT_TRACE, SCRIPT_PICTURE, SCRIPT_FILE];

/// Returns the options and operands of `script`.
pub(crate) fn script_options() -> &'static [OptionRow]
    ensures { map facts_of result.now ≡ script_options }
{
    &SCRIPT
}

/// Reports every violation. An event that breaks a rule changes nothing.
pub const ALL: OptionRow = flag!("all", "Report every violation, not only the first");

/// Prints one JSON object, or nothing if the trace cannot be read to its end.
pub const AUDIT_JSON: OptionRow = flag!("json", "Print one JSON object");

/// Adds the host's connections and waiters before each violation.
pub const STATE: OptionRow = flag!(
    "state",
    "Add the host's connections and waiters before each violation"
);

/// The trace. Without it, or with `-`, the trace is standard input.
pub const AUDIT_FILE: OptionRow = OptionRow {
    name: "FILE",
    takes: Takes::Operand,
    help: "The trace; standard input if it is - or left out",
    ..FLAG
};

static AUDIT: [OptionRow; 4] = [ALL, AUDIT_JSON, STATE, AUDIT_FILE];

/// Returns the options and operands of `audit`.
pub(crate) fn audit_options() -> &'static [OptionRow]
    ensures { map facts_of result.now ≡ audit_options }
{
    &AUDIT
}
