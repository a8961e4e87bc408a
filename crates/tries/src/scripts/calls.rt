//! The commands of a script's hosts, over a shared cache.

use crate::scripts::site_leases::{NoStream, SiteLeases};
use crate::scripts::telling::lines;
use budget::Refusal;
use bundle::{Bundle, Snapshot};
use persistence::{Facts, Framing, Version};
use script_text::{
    Action, Command, Ending, FaultKind, HostCommand, LookLine, read_line, reply, too_many_leased,
    upkeep,
};
use shared_cache::{Names, SharedCache};
use std::alloc::Global;
use std::sync::Wait;

/// Facts of a response whose connection persists.
const KEEP: Facts = Facts {
    version: Version::V11,
    close: false,
    keep_alive: false,
    request_close: false,
    framing: Framing::Counted,
    both_lengths: false,
    upgraded: false,
    whole: true,
    surplus: false,
};

/// Runs a line, and returns its lines of the transcript. `told` has, by host, the number of log
/// entries in the transcript.
pub(super) fn answer<N: Names, R: Wait>(
    rt: &R,
    alloc: Global,
    cache: &SharedCache<NoStream, N>,
    kept: &mut SiteLeases<N>,
    told: &mut [usize],
    line: &[u8],
) -> Result<String, FaultKind> {
    match read_line(line)? {
        None => Ok(String::new(alloc)),
        Some(Command::Limits(_)) => Err(FaultKind::Place),
        Some(Command::Site(_)) => Err(FaultKind::Place),
        Some(Command::Ask(asked)) => answer_asked(rt, alloc, cache, kept, told, asked),
    }
}

// Runs a command of the hosts.
fn answer_asked<N: Names, R: Wait>(
    rt: &R,
    alloc: Global,
    cache: &SharedCache<NoStream, N>,
    kept: &mut SiteLeases<N>,
    told: &mut [usize],
    asked: HostCommand,
) -> Result<String, FaultKind> {
    match asked {
        HostCommand::At { site, action } => answer_at(rt, alloc, cache, kept, told, site, action),
        HostCommand::Prune {
            max_age,
            max_life,
            moment,
        } => {
            kept.prune(rt, cache, moment, max_age, max_life);
            lines(rt, alloc, cache, told, 0)
        }
        HostCommand::Upkeep => upkeep(alloc, cache.upkeep()),
    }
}

// Runs an action at a site.
fn answer_at<N: Names, R: Wait>(
    rt: &R,
    alloc: Global,
    cache: &SharedCache<NoStream, N>,
    kept: &mut SiteLeases<N>,
    told: &mut [usize],
    site: u32,
    action: Action,
) -> Result<String, FaultKind> {
    let (by, done) = match action {
        Action::Get { want, moment } => {
            (want.transfer, kept.acquire(rt, cache, site, want, moment))
        }
        Action::Claim { transfer } => return kept.claim(rt, alloc, cache, site, transfer),
        Action::Back {
            transfer,
            ending,
            moment,
        } => {
            let facts = facts_of(ending);
            let is_there = kept.give_back(rt, cache, site, transfer, facts, moment);
            (transfer, stranger_unless(is_there))
        }
        Action::Drop { transfer, moment } => {
            let is_there = kept.abandon(rt, cache, site, transfer, moment);
            (transfer, stranger_unless(is_there))
        }
        Action::Leave { transfer, moment } => {
            let is_there = kept.withdraw(rt, cache, site, transfer, moment);
            (transfer, stranger_unless(is_there))
        }
        // A new limit gives no connection back.
        Action::Limit { limit, moment } => {
            (0, kept.set_host_limit(rt, cache, site, limit, moment))
        }
        Action::Look => return look(rt, alloc, cache, site),
    };
    match done {
        Ok(()) => lines(rt, alloc, cache, told, by),
        Err(refusal) => refused(alloc, refusal),
    }
}

/// Returns `StrangeLease` if the transfer did not have the lease or ticket that it gives back.
fn stranger_unless(is_there: bool) -> Result<(), Refusal> {
    if is_there {
        Ok(())
    } else {
        Err(Refusal::StrangeLease)
    }
}

/// Returns the reply to a refused call.
fn refused(alloc: Global, refusal: Refusal) -> Result<String, FaultKind> {
    match refusal {
        Refusal::BadSite => reply(alloc, "bad-site"),
        Refusal::TransferBusy => reply(alloc, "busy"),
        Refusal::StrangeLease => reply(alloc, "stranger"),
        Refusal::Exhausted => reply(alloc, "exhausted"),
        Refusal::BadLimit => reply(alloc, "bad-limit"),
        Refusal::Busy(held) => too_many_leased(alloc, held),
        _ => Err(FaultKind::Memory),
    }
}

/// Returns the line of a `look` at a site.
fn look<N: Names, R: Wait>(
    rt: &R,
    alloc: Global,
    cache: &SharedCache<NoStream, N>,
    site: u32,
) -> Result<String, FaultKind> {
    match cache.inspect(rt, site, |bundle: &Bundle<NoStream>| bundle.look()) {
        Ok(seen) => look_line(alloc, site, seen),
        Err(refusal) => refused(alloc, refusal),
    }
}

/// Returns the line of a snapshot of a host.
fn look_line(alloc: Global, host: u32, seen: Snapshot) -> Result<String, FaultKind> {
    let Snapshot {
        alive,
        idle,
        leased,
        waiting,
        queued,
    } = seen;
    let line = LookLine {
        host,
        alive,
        idle,
        leased,
        waiting,
        queued,
    };
    match line.to_string(alloc) {
        Ok(text) => Ok(text),
        Err(_) => Err(FaultKind::Memory),
    }
}

/// Returns the facts of a response with that ending.
fn facts_of(ending: Ending) -> Facts {
    match ending {
        Ending::Keep => KEEP,
        Ending::Close => Facts {
            close: true,
            ..KEEP
        },
        Ending::Old => Facts {
            version: Version::V10,
            ..KEEP
        },
        Ending::OldKeep => Facts {
            version: Version::V10,
            keep_alive: true,
            ..KEEP
        },
        Ending::Eof => Facts {
            framing: Framing::UntilClose,
            ..KEEP
        },
        Ending::Cut => Facts {
            whole: false,
            ..KEEP
        },
        Ending::Surplus => Facts {
            surplus: true,
            ..KEEP
        },
    }
}
