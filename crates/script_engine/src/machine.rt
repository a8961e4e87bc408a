//! Runs a script's commands, one after another.

ghost use Rattle.std.specs.Prelude.{◌≡◌, ◌<◌, ◌≤◌, ◌⊎◌, IfErr, IfOk, OnOk, IfNone, IfSome, length};
ghost use Rattle.std.specs.Prelude.{IsSome, Some, None, true, string_bytes};
ghost use Rattle.cache.specs.Pools.{all_hosts};
ghost use Rattle.cache.specs.AllHosts.{log_at};
ghost use Rattle.script_text.specs.Printing.{GivesText};
ghost use Rattle.script_text.specs.declared.command.Limits.{Limits};
ghost use Rattle.script_engine.specs.Meaning.{Run, start, step, begun, with_limits, with_url};
ghost use Rattle.script_engine.specs.Meaning.{with_answer, at_script_end, at_no_host, are_good};
ghost use Rattle.script_engine.specs.Meaning.{asked_answer, bounds_given};
ghost use Rattle.script_engine.specs.Ending.{IsEnding};
ghost use Rattle.script_engine.specs.Transcript.{Answers};
ghost use Rattle.script_engine.specs.Hosted.{GivesAt, AnswersAsked};

use crate::hosts::PooledHosts;
use cache::Pool;
use conn_key::{CountedMemory, Sites, SitesFault};
use conn_log::Log;
use script_text::{Action, Command, FaultKind, HostCommand, Limits, SiteWord, reply};
use std::alloc::Global;
use std::marker::Model;
use std::mem;

/// A machine that runs a script's commands.
pub trait Machine {
    ghost use Rattle.script_engine.specs.Meaning.{Run};

    /// The state of the run after the commands so far.
    ghost run: { Self → Run };

    /// Carries out a command, and gives its lines of the transcript. A refused command changes
    /// nothing, unless memory ran out.
    fn answer(&mut self, command: Command<'_>) -> Result<String, FaultKind>
        ensures meant { Answers string_bytes (step (run self.old) command.entry) result
            (run self.new) }
        ensures same { IfErr result (λ kind.
            (kind ≡ FaultKind.Memory) ⊎ (run self.new ≡ run self.old)) };

    /// Ends the script. If limits were given, the hosts are made by then, even if no command came.
    /// The only error is `Memory`.
    fn end_of_script(&mut self) -> Result<(), FaultKind>
        ensures ok { OnOk result (run self.new ≡ at_script_end (run self.old)
            (run self.old).limits) }
        ensures err { IfErr result (λ kind. kind ≡ FaultKind.Memory) };
}

/// A run of a script.
pub struct Engine {
    alloc: Global,
    limits: Option<Limits>,
    sites: Sites,
    has_begun: bool,
    hosts: Option<PooledHosts>,
}

impl Model for Engine {
    ghost use Rattle.std.specs.Prelude.{◌≡◌, None, true, false, if◌then◌else◌, IfSome};
    ghost use Rattle.std.specs.Option.{option_map, option_map_or};
    ghost use Rattle.script_engine.specs.Hosted.{Hosted};
    ghost use Rattle.script_engine.specs.Meaning.{Run, new_hosts, bounds_given, are_good};

    ghost Value = { Run };

    ghost view = { λ e. record {
      limits = e.limits;
      sites = e.sites;
      has_begun = e.has_begun;
      hosts = option_map_or (λ (h : Hosted). h.hosts) e.hosts (new_hosts 0);
    } };

    ghost invariant = { λ e. (option_map (λ (h : Hosted). h.limits) e.hosts
        ≡ (if e.has_begun then option_map bounds_given e.limits else None))
        × (e.limits ≡ None → e.has_begun ≡ false)
        × IfSome e.limits (λ limits. are_good limits ≡ true) };
}

impl Machine for Engine {
    ghost run = { λ e. e };

    #[tactic(auto, unfolding(crate::specs::Meaning::step))]
    fn answer(&mut self, command: Command<'_>) -> Result<String, FaultKind> {
        match command {
            Command::Limits(limits) => self.set_limits(limits),
            Command::Site(word) => self.add_site(&word),
            Command::Ask(asked) => self.ask(asked),
        }
    }

    fn end_of_script(&mut self) -> Result<(), FaultKind> {
        match self.limits {
            Some(limits) => self.begin(limits),
            None => Ok(()),
        }
    }
}

impl Engine {
    /// Begins a run. The only error is `Memory`.
    pub fn new(alloc: Global) -> Result<Engine, FaultKind>
        ensures ok { IfOk result (λ engine. engine ≡ start) }
        ensures err { IfErr result (λ kind. kind ≡ FaultKind.Memory) }
    {
        match Sites::new(alloc) {
            Ok(sites) => Ok(Engine {
                alloc,
                limits: None,
                sites,
                has_begun: false,
                hosts: None,
            }),
            Err(_) => Err(FaultKind::Memory),
        }
    }

    /// The limits, if the script gave them.
    pub fn limits(&self) -> Option<Limits>
        ensures { result ≡ self.now.limits }
    {
        self.limits
    }

    /// The sites, in the order in which the script named them.
    pub fn sites(&self) -> &Sites
        ensures { result.now ≡ self.now.sites }
    {
        &self.sites
    }

    /// The log of a site's host. None before the first command after the sites, or if there is no
    /// such site.
    pub fn log(&self, site: u32) -> Option<&Log>
        ensures there { IfSome result (λ log.
            log.now.entries ≡ log_at self.now.hosts.all site) }
        ensures none { IfNone result (length self.now.hosts.all.logs ≤ site) }
    {
        match &self.hosts {
            Some(hosts) => hosts.log(site),
            None => None,
        }
    }

    /// Abandons the leases that are left, and withdraws the tickets, by site and then by transfer,
    /// at moment 0. Gives the pool, if one was made.
    pub fn end(self) -> Option<Pool<()>>
        ensures ending { IfSome result (λ pool. IsEnding pool.limits self.hosts (all_hosts pool)) }
        ensures limits { (limits : Limits) → self.limits ≡ Some limits
            → IfSome result (λ pool. pool.limits ≡ bounds_given limits) }
        ensures made { self.has_begun ≡ true → IsSome result }
    {
        let Engine {
            alloc: _,
            limits: _,
            sites: _,
            has_begun: _,
            hosts,
        } = self;
        end_hosts(hosts)
    }

    /// `limits`: once, before all others.
    fn set_limits(&mut self, limits: Limits) -> Result<String, FaultKind>
        ensures meant { Answers string_bytes (with_limits self.old limits self.old.limits) result
            self.new }
        ensures same { IfErr result (λ kind.
            (kind ≡ FaultKind.Memory) ⊎ (self.new ≡ self.old)) }
    {
        if self.limits.is_some() {
            return Err(FaultKind::Place);
        }
        if !are_good(limits) {
            return Err(FaultKind::BadLimits);
        }
        self.limits = Some(limits);
        Ok(String::new(self.alloc))
    }

    /// `site`: after the limits, before all others.
    fn add_site(&mut self, word: &SiteWord<'_>) -> Result<String, FaultKind>
        ensures meant { Answers string_bytes (with_url self.old word.now self.old.limits) result
            self.new }
        ensures same { IfErr result (λ kind.
            (kind ≡ FaultKind.Memory) ⊎ (self.new ≡ self.old)) }
    {
        if self.limits.is_none() || self.has_begun {
            return Err(FaultKind::Place);
        }
        let target = word.target(&mut CountedMemory::new(self.alloc))?;
        match self.sites.add(&target) {
            Ok(_) => Ok(String::new(self.alloc)),
            Err(SitesFault::TooMany) => Err(FaultKind::TooManySites),
            Err(SitesFault::Memory) => Err(FaultKind::Memory),
        }
    }

    /// Asks the hosts, after the limits and the sites.
    fn ask(&mut self, asked: HostCommand) -> Result<String, FaultKind>
        ensures meant { Answers string_bytes
            (with_answer self.old (asked_answer asked) self.old.limits) result self.new }
        ensures same { IfErr result (λ kind.
            (kind ≡ FaultKind.Memory) ⊎ (self.new ≡ self.old)) }
    {
        let Some(limits) = self.limits else {
            return Err(FaultKind::Place);
        };
        self.begin(limits)?;
        let alloc = self.alloc;
        match &mut self.hosts {
            Some(hosts) => answer_asked(hosts, alloc, asked),
            // The hosts were made.
            None => unreachable!(),
        }
    }

    /// Makes the hosts at the first command after the sites. The only error is `Memory`.
    fn begin(&mut self, limits: Limits) -> Result<(), FaultKind>
        requires limits { self.old.limits ≡ Some limits }
        ensures ok { OnOk result (self.new ≡ begun self.old) }
        ensures err { IfErr result (λ kind. kind ≡ FaultKind.Memory) }
    {
        if self.has_begun {
            return Ok(());
        }
        let Ok(bounds) = budget::Limits::new(limits.host, limits.total, limits.kept) else {
            // The limits were good when they were given.
            unreachable!()
        };
        let hosts = PooledHosts::new(self.alloc, bounds, self.sites.len() as u32)?;
        put_hosts(&mut self.hosts, hosts);
        self.has_begun = true;
        Ok(())
    }
}

/// Whether these limits can be kept: at least one connection may be kept after use, and no number
/// is above 65,535.
fn are_good(limits: Limits) -> bool
    ensures { result ≡ are_good limits }
{
    budget::Limits::new(limits.host, limits.total, limits.kept).is_ok()
}

/// The hosts' answer to a command.
fn answer_asked(
    hosts: &mut PooledHosts,
    alloc: Global,
    asked: HostCommand,
) -> Result<String, FaultKind>
    ensures { AnswersAsked string_bytes hosts.old (asked_answer asked) result hosts.new }
{
    match asked {
        HostCommand::At { site, action } => {
            if site < hosts.sites() {
                answer_at(hosts, alloc, site, action)
            } else {
                answer_without_host(alloc, action)
            }
        }
        HostCommand::Prune {
            max_age,
            max_life,
            moment,
        } => hosts.prune(alloc, max_age, max_life, moment),
        HostCommand::Upkeep => hosts.upkeep(alloc),
    }
}

/// The hosts' answer to an action at a site.
fn answer_at(
    hosts: &mut PooledHosts,
    alloc: Global,
    site: u32,
    action: Action,
) -> Result<String, FaultKind>
    requires there { site < length hosts.old.hosts.all.logs }
    ensures { GivesAt string_bytes hosts.old site action result hosts.new }
{
    match action {
        Action::Get { want, moment } => hosts.get(alloc, site, want, moment),
        Action::Claim { transfer } => hosts.claim(alloc, site, transfer),
        Action::Back {
            transfer,
            ending,
            moment,
        } => hosts.back(alloc, site, transfer, ending, moment),
        Action::Drop { transfer, moment } => hosts.abandon(alloc, site, transfer, moment),
        Action::Leave { transfer, moment } => hosts.leave(alloc, site, transfer, moment),
        Action::Limit { limit, moment } => hosts.limit(alloc, site, limit, moment),
        Action::Look => hosts.look(alloc, site),
    }
}

/// The answer to an action at a site that does not exist.
fn answer_without_host(alloc: Global, action: Action) -> Result<String, FaultKind>
    ensures { GivesText string_bytes (at_no_host action) result }
{
    match action {
        Action::Get { .. } => reply(alloc, "bad-site"),
        Action::Claim { .. } => reply(alloc, "stranger"),
        Action::Back { .. } => reply(alloc, "stranger"),
        Action::Drop { .. } => reply(alloc, "stranger"),
        Action::Leave { .. } => reply(alloc, "stranger"),
        Action::Limit { .. } => reply(alloc, "bad-site"),
        Action::Look => reply(alloc, "bad-site"),
    }
}

/// Puts the hosts in their place, and ends those that were there, if any.
fn put_hosts(place: &mut Option<PooledHosts>, hosts: PooledHosts)
    ensures { place.new ≡ Some hosts }
{
    let _ = end_hosts(mem::replace(place, Some(hosts)));
}

/// Ends the hosts, if they were made, and gives their pool.
fn end_hosts(hosts: Option<PooledHosts>) -> Option<Pool<()>>
    ensures some { IfSome hosts (λ h. IfSome result (λ pool.
        IsEnding h.limits h.hosts (all_hosts pool) × (pool.limits ≡ h.limits))) }
    ensures there { IsSome hosts → IsSome result }
    ensures none { hosts ≡ None → result ≡ None }
{
    match hosts {
        Some(hosts) => Some(hosts.end()),
        None => None,
    }
}
