//! The texts of help: the language of scripts and traces, and what `get` and `load` write.

/// The end of the program's help: examples, and how to get more.
pub const EXAMPLES: &str = "\
Examples:
  curlpool get http://localhost:8000/a http://localhost:8000/b
  curlpool load http://localhost:8000/ -c 16 -d 5s
  curlpool script examples/claim-first.script
  curlpool audit --all pool.trace

curlpool help COMMAND, or curlpool COMMAND --help, explains the output, the
statuses and each option of a command.";

/// Commands, transcripts and faults of scripts, as tables of at most 80 columns.
pub const COMMANDS: &str = "\
A script lists commands, one per line. Empty lines and lines that begin with #
are skipped. Only spaces separate words: a tab, and a byte-order mark before the
first line, are part of a word. T is a transfer, S a site (0 is the first), L a
lane (a connection is reused only within its lane), and M a time in seconds; one
before the host's latest counts as the latest.

Command             Meaning
limits H T C        The first command: at most H connections are open to a
                    host, T to all hosts, and C are kept idle
site http://..      Adds a host by a URL, unless it has been added already; all
                    sites come before any other command
get T S L at M ..   Transfer T acquires a connection, or starts to wait for one
claim T S           T claims the connection that was granted to it
back T S KIND at M  T returns its connection after a response of this KIND
drop T S at M       T abandons its connection
leave T S at M      T stops waiting, or gives up what was granted to it
limit S N at M      The host's limit becomes N: idle connections above it are
                    closed; refused if more are granted or in use
prune A F at M      Closes all idle connections that have been idle for more
                    than A seconds, or open for more than F (F 0: no limit)
upkeep              Does nothing: HTTP/1.1 has no keep-alive ping
look S              Counts the connections and waiters of the host

Options of get, each at most once and in any order:
age N               Reuses connections idle for at most N seconds (default 118)
life N              Reuses connections at most N seconds old (0: no limit)
fresh               Reuses no connection
forbid              The connection is closed after this use

KIND                The response
keep                lets its connection persist
close               has the connection option close
old                 is HTTP/1.0 without keep-alive
old-keep            is HTTP/1.0 with keep-alive, so its connection persists
eof                 has a body delimited by the end of the connection
cut                 was not read to its end
surplus             was followed by more bytes

Number              Range
H and T of limits   0 to 65535, where 0 means 65535; N of limit, too
C of limits         1 to 65535
S                   0 to 1023, since there are at most 1024 sites
L                   0 to 4294967295
any other           0 to 18446744073709551615

A script has at most 1048576 bytes, a line 2304, and a URL 2048.

Line of transcript  Meaning; H.C is connection C of site H
opened H.C for T at M
                    It was opened for T, which must claim it if it waited
leased H.C to T at M
                    It is reused by T, which must claim it if it waited
returned H.C by T at M
                    T returned it
closed H.C CAUSE at M
                    It was closed for this CAUSE
waits T host H at M
                    T waits, behind all others waiting there
left T host H at M  T stopped waiting
limit H N at M      The host's limit is N from now on
claimed H.C         Reply to claim: T has it
still waiting       Reply to claim: nothing has been granted to T yet
upkeep N            Reply to upkeep: N connections were kept alive
host H open N idle N leased N waiting N queued yes|no
                    Reply to look: connections open, idle, and granted or in
                    use; waiters, and whether they wait for room in the total
refused busy        Reply to get: T has a connection of the host or waits there
refused exhausted   Reply to get: the host has no connection number left
refused bad-site    Reply to get, limit and look: there is no such site
refused bad-limit   Reply to limit: N is above 65535
refused leased N    Reply to limit: N connections are granted or in use
refused stranger    Reply to back and drop: T has no connection there, or has
                    not claimed it yet; to claim and leave: T does not wait
                    there and has no connection to claim

CAUSE               Why the connection was closed
cut                 The response was not read to its end
forbidden           Otherwise, its get had the option forbid
not-persistent      Otherwise, the response does not let it persist
too-old             It was idle or open longer than a get in its lane allows
host-room           To make room for a connection to its host, or for a lower
                    limit
total-room          To make room in the total
cache-full          It had been idle longest when another was returned and C
                    were already idle
dropped             T abandoned it
withdrawn           T left before it claimed it
pruned              It was idle or open longer than prune allows

line N: ..          On standard error: why the script stopped at line N (0:
                    before its first line, or after its last)
unknown command     The first word of the line is not a command
wrong form          A word is missing, extra or invalid, such as a number that
                    is too large
wrong place         A limits that is not first, a site after other commands, or
                    a command before limits
bad limits          C is 0, or a number is above 65535
bad site            It is not UTF-8, not a URL, not http, or too long
too many sites      It would be the 1025th
line too long       It has more than 2304 bytes
script too long     It has more than 1048576 bytes; nothing was run
cannot read         The script could not be read; nothing was run
cannot write        The transcript could not be written
out of memory       An allocation failed

Status              0: the script ran to its end; 2: invalid command line; 3:
                    the script stopped early; 4: out of memory while the
                    command line was read, or the picture could not be written
                    (run: .. says why)

Examples
curlpool script examples/claim-first.script
curlpool script --picture pictured.svg examples/pictured.script
curlpool script <examples/who-waits.script

A transfer that waited claims its connection. After limits 1 0 1 and one site:
get 1 0 0 at 0      opened 0.1 for 1 at 0
get 2 0 0 at 1      waits 2 host 0 at 1
back 1 0 keep at 2  returned 0.1 by 1 at 2
                    leased 0.1 to 2 at 2
back 2 0 keep at 3  refused stranger
claim 2 0           claimed 0.1
back 2 0 keep at 4  returned 0.1 by 2 at 4";

/// The lines that `get` writes, and its statuses.
pub const LINES: &str = "\
A URL begins with http:// and has no control characters. Requests to the same
host and port reuse its connection. The system looks a host name up once, unless
it is localhost, an address, or given by --resolve. Bodies are counted, and not
printed. Each URL has a line, written when its transfer ends: in the order of
the URLs or, with --parallel above 1, in the order in which transfers end. A
number of seconds may have a unit: 10s, 5m (minutes) or 1h (hours).

STATUS LENGTH reused|new [retried] URL
                    The response's status code, and the length of its body in
                    bytes; whether its connection had been used before; retried:
                    a reused connection closed, failed or had unsolicited bytes
                    before any response byte arrived, so the request was made on
                    a new one, and the server may have received it twice
FAULT [retried] URL There is no good response
BadUrl URL          With --skip-bad: the URL is invalid

Any number of URLs is fetched: first those of the command line, then the file's,
one per line. Empty lines and lines that begin with # are skipped. Up to 256
URLs are read ahead while transfers are in flight, from standard input or a pipe
too. Above 1024, hosts take turns: one's idle connections are closed before
another takes its slot. A JSON object has the members url, status, length,
reused, retried, fault, reason, and waited_us, dialled_us, first_byte_us and
whole_us, each since the transfer began; null if not applicable.

FAULT               Why
Memory              An allocation failed
Dial                No connection could be opened, or the host is unknown
Read                A read failed
Write               A write failed
BadResponse         The bytes are not an HTTP/1.0 or HTTP/1.1 response, or its
                    length is ambiguous, or it exceeds a limit: 16384 bytes in a
                    head, 100 fields in a head or trailer section, 8 interim
                    responses, 1024 bytes in a chunk line, 8192 bytes in a
                    trailer section
Cut                 The connection closed in mid-response
Refused             The cache, not the server, refused a connection
Cancelled           The transfer took longer than --timeout, or the system's
                    clock or poll failed

run: ..             Why the status is 4
N of M failed       N of M URLs have no good response or, with --fail, a status
                    of 400 or above
out of memory       An allocation failed
cannot read FILE: REASON
                    The file of URLs could not be read
too few descriptors The process or the system cannot open more files
poll failed         The system cannot wait for connections
cannot write        A line could not be written; no more URLs were fetched

line N: bad URL     The status is 2: line N of the file is not a URL

Status              0: each URL has a good response; 2: invalid command line,
                    and nothing was requested, or a line of the file is not a
                    URL; 4: a URL failed, its line could not be written, or
                    memory or the network failed

Examples, with a server on this host
curlpool get http://localhost:8000/a http://localhost:8000/b
200 103 new http://localhost:8000/a
200 602 reused http://localhost:8000/b

curlpool get --head --timeout 5s http://127.0.0.1:8000/
curlpool get --max-age 0 http://[::1]:8000/a http://[::1]:8000/b
curlpool get --file urls.txt -P 64 --skip-bad --json";

/// The report of `load`, and its statuses.
pub const REPORT: &str = "\
Without a URL, a server in this process listens on 127.0.0.1, on one port per
site, and answers each request with the body ok. Threads that share one cache of
connections take the jobs 0, 1, 2 ..; job K requests /K from site K modulo the
number of sites. With --trace, the calls to the cache and their effects go to a
file for curlpool audit. Numbers are unsigned decimal integers; a number of
seconds may have a unit: 10s, 5m (minutes) or 1h (hours).

With URLs, by --url or as arguments, job K requests URL K modulo their number.
Each thread then keeps its own connections, unless --host-limit, --total or
--trace is given, or --connects is below --connections. The system looks a host
name up, unless it is localhost, an address, or given by --resolve.

With a URL or an option after --trace, a summary is printed on standard error:
requests, bytes of bodies, latency, connections (and the time that requests
waited for one, in total), statuses and faults. Without --seconds, the load ends
after --jobs requests.
Requests in flight when time is up are stopped, and count as neither done nor
failed. --rate is the rate of all connections. Only whole responses have a
latency, which is timed from when the request was due. Figures include opening
connections; a --warmup, which comes before the seconds, excludes it. --json has
the summary's figures, and more.

Line of report      Its numbers in order
host                For each site: its index; connections opened, reused and
                    closed; requests that waited for one; connections open at
                    the end
all                 The number of sites, and the sums of the other columns
jobs                Requests; requests without a good response; good responses
                    on a connection that had been used before; good responses
                    after a retry; bytes of all bodies

run: ..             Why there is no report, or only part of it
out of memory       An allocation failed
bad workers         The number of threads is out of range
poll failed         Waiting for connections failed
job collected twice A job has two results
job missing         A job has no result
cannot start thread The system refused a thread
cannot listen       The system refused a port for the server
cannot gather       The counts of the threads could not be combined
cannot write        The report could not be written
cannot write FILE: REASON
                    The trace or the picture could not be written
unknown host NAME   A URL's host could not be resolved
no good response    With a URL or an option after --trace: no request succeeded

Status              0: the report was written; 2: invalid command line, and
                    nothing was done; 4: no good response, no report, or part of
                    the output is missing (run: .. says why); 5: more requests
                    failed than --fail-above allows; 130: Ctrl-C ended the load

Examples
curlpool load --sites 1 --jobs 3 --workers 1
host       0       1       2       0       0       1
all        1       1       2       0       0       1
jobs       3       0       2       0       6

curlpool load --sites 4 --jobs 10000 --workers 64 --host-limit 2 --total 6

curlpool load --total 1 --trace load.trace
curlpool audit load.trace

curlpool load http://127.0.0.1:8080/ -c 64 -t 4 -d 10s -R 1000";

/// The language of traces, and the answers of `audit`.
pub const AUDITS: &str = "\
A trace lists the calls to a connection pool and their effects, one per line, in
time order. Lines, words, comments and numbers are those of a script (curlpool
help script). Limits come first, then sites, then everything else. A pool is at
rest once all effects of its last call are listed.

Line of trace       Meaning
order host          The first line of all: lines are in order only within each
                    host
limits H T C, site http://..
                    As in a script
get T S L at M .., back T S KIND at M
                    As in a script: what the pool was asked. Each opening, lease
                    and wait needs a get before it, each return a back
claim, drop, leave, prune, look, upkeep
                    As in a script: the pool was asked something else, and was
                    at rest before
opened, leased, returned, closed, waits, left, limit
                    As in a transcript: what the pool did. A cause may be left
                    out; a closed connection's number may be reused
rest                The pool is at rest here. If the first line after the sites
                    is rest, the pool is at rest only at such lines and at the
                    end

Each line that breaks a rule is reported with the rule and its numbers, followed
by the earlier line that matters, if there is one:

FILE:LINE: EVENT: TEXT
FILE:LINE: here TEXT
FILE:LINE: host H: 0.1 idle since M, 0.2 leased to T; waiting T
                    With --state: the host's connections, in the order in which
                    they were opened, and its wait queue, before the event

Without --all, only the first one is reported. With it, an event that breaks a
rule is skipped. Standard input shows as trace. JSON has the members
lawful, events, hosts, open and violations, and each violation line, rule, text
and earlier; there is no JSON if the trace cannot be read to its end.

Status              0: the trace is lawful; 1: it breaks a rule; 2: invalid
                    command line; 3: the trace cannot be read to its end (line
                    N: .. says why); 4: out of memory, or the answer could not
                    be written

Examples
curlpool audit pool.trace
lawful: 1,204 events, 8 hosts, 3 still open

curlpool audit --all --state <pool.trace
trace:8: leased 0.1 to 7 at 260: idle for 121 seconds, and transfer 7 accepts 118
trace:6: here 0.1 came back
trace:8: host 0: 0.1 idle since 139";
