//! The structs that C fills in or reads.

ghost use Rattle.std.specs.Prelude.{◌≡◌};
ghost use Rattle.curlpool_c.specs.Structs.{facts_of, framing_number, version_number};
ghost use Rattle.curlpool_c.specs.Structs.{IsCounts, IsLook, IsResponse, framing_of, version_of};

use bundle::Snapshot;
use conn_log::Counts;
use held_pool::Response;
use persistence::{Facts, Framing, Version};

/// `curlpool_facts`: what decides whether a connection persists. Version 0 is HTTP/1.0, 1 is
/// HTTP/1.1; framing 0 is no body, 1 counted, 2 chunked, 3 until the connection ends, 4 faulty.
#[repr(C)]
#[derive(Clone, Copy)]
pub struct CFacts {
    pub version: u32,
    pub framing: u32,
    pub close: bool,
    pub keep_alive: bool,
    pub request_close: bool,
    pub both_lengths: bool,
    pub upgraded: bool,
    pub whole: bool,
    pub surplus: bool,
}

/// `curlpool_response`: what the bytes of a response tell so far. The status is 0 before the final
/// head has come.
#[repr(C)]
#[derive(Clone, Copy)]
pub struct CResponse {
    pub body_length: u64,
    pub status: u32,
    pub version: u32,
    pub framing: u32,
    pub persists: bool,
    pub whole: bool,
    pub surplus: bool,
}

/// `curlpool_look`: the counts of a site at a moment.
#[repr(C)]
#[derive(Clone, Copy)]
pub struct CLook {
    pub alive: u32,
    pub idle: u32,
    pub leased: u32,
    pub waiting: u32,
    pub queued: bool,
}

/// `curlpool_counts`: what happened at a site since the pool was opened.
#[repr(C)]
#[derive(Clone, Copy)]
pub struct CCounts {
    pub opened: u64,
    pub reused: u64,
    pub closed: u64,
    pub waited: u64,
}

/// `curlpool_target`: how many bytes of a buffer are the host, how many behind them the path.
#[repr(C)]
#[derive(Clone, Copy)]
pub struct CTarget {
    pub host_length: usize,
    pub path_length: usize,
    pub port: u16,
}

// The version with that number.
#[inline(always)]
fn version_of(number: u32) -> Option<Version>
    ensures { result ≡ version_of number }
{
    match number {
        0 => Some(Version::V10),
        1 => Some(Version::V11),
        _ => None,
    }
}

// The framing with that number.
#[inline(always)]
fn framing_of(number: u32) -> Option<Framing>
    ensures { result ≡ framing_of number }
{
    match number {
        0 => Some(Framing::NoBody),
        1 => Some(Framing::Counted),
        2 => Some(Framing::Chunked),
        3 => Some(Framing::UntilClose),
        4 => Some(Framing::Faulty),
        _ => None,
    }
}

impl CFacts {
    // The facts; none if a number stands for nothing.
    #[inline(always)]
    pub(crate) fn facts(&self) -> Option<Facts>
        ensures { result ≡ facts_of self.now }
    {
        let version = version_of(self.version)?;
        let framing = framing_of(self.framing)?;
        Some(Facts {
            version,
            close: self.close,
            keep_alive: self.keep_alive,
            request_close: self.request_close,
            framing,
            both_lengths: self.both_lengths,
            upgraded: self.upgraded,
            whole: self.whole,
            surplus: self.surplus,
        })
    }
}

// The number of a version.
fn version_number(version: Version) -> u32
    ensures { result ≡ version_number version }
{
    match version {
        Version::V10 => 0,
        Version::V11 => 1,
    }
}

// The number of a framing.
fn framing_number(framing: Framing) -> u32
    ensures { result ≡ framing_number framing }
{
    match framing {
        Framing::NoBody => 0,
        Framing::Counted => 1,
        Framing::Chunked => 2,
        Framing::UntilClose => 3,
        Framing::Faulty => 4,
    }
}

impl CResponse {
    // What a response tells.
    pub(crate) fn of(response: &Response) -> CResponse
        ensures { IsResponse response.now result }
    {
        CResponse {
            body_length: response.body_len,
            status: u32::from(response.status.unwrap_or(0)),
            version: version_number(response.facts.version),
            framing: framing_number(response.facts.framing),
            persists: response.persists,
            whole: response.facts.whole,
            surplus: response.facts.surplus,
        }
    }
}

impl CLook {
    // The counts of a site.
    pub(crate) fn of(counts: &Snapshot) -> CLook
        ensures { IsLook counts.now result }
    {
        CLook {
            alive: counts.alive,
            idle: counts.idle,
            leased: counts.leased,
            waiting: counts.waiting,
            queued: counts.queued,
        }
    }
}

impl CCounts {
    // What happened at a site.
    pub(crate) fn of(counts: &Counts) -> CCounts
        ensures { IsCounts counts.now result }
    {
        CCounts {
            opened: counts.opened,
            reused: counts.reused,
            closed: counts.closed,
            waited: counts.waited,
        }
    }
}
