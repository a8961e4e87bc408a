//! URLs and sites, out of memory.

ghost use Rattle.std.specs.Prelude.{◌≡◌, ◌≤◌, true};
ghost use Rattle.streams.specs.RisingCounts.{Rises};

use crate::checks::check_eq;
use conn_key::{CountedMemory, KeyError, Sites, SitesFault, TargetMemory, read_target};
use std::alloc::AllocError;
use std::test::Fail;
use url::{ParseError, Url};

/// Memory that is out after `calls_left` calls.
#[derive(Drop)]
struct ScarceMemory {
    memory: CountedMemory,
    calls_left: u32,
    wants: u64,
}

impl ScarceMemory {
    fn is_short(&mut self) -> bool
        ensures wants { result ≡ true → Rises self.old.wants self.new.wants }
        ensures kept { self.old.wants ≤ self.new.wants }
    {
        if self.calls_left == 0 {
            self.wants = self.wants.saturating_add(1);
            return true;
        }
        self.calls_left -= 1;
        false
    }
}

impl TargetMemory for ScarceMemory {
    ghost wants = { λ scarce. scarce.wants };

    fn parse(&mut self, text: &str) -> Result<Url, ParseError> {
        if self.is_short() {
            return Err(ParseError::OutOfMemory);
        }
        let parsed = self.memory.parse(text);
        if let Err(ParseError::OutOfMemory | ParseError::Overflow) = &parsed {
            self.wants = self.wants.saturating_add(1);
        }
        parsed
    }

    fn copy(&mut self, text: &str) -> Result<String, AllocError> {
        if self.is_short() {
            return Err(AllocError);
        }
        let copy = self.memory.copy(text);
        if copy.is_err() {
            self.wants = self.wants.saturating_add(1);
        }
        copy
    }

    fn add(&mut self, text: &mut String, more: &str) -> Result<(), AllocError> {
        if self.is_short() {
            return Err(AllocError);
        }
        let added = self.memory.add(text, more);
        if added.is_err() {
            self.wants = self.wants.saturating_add(1);
        }
        added
    }
}

/// Texts, the number of calls of the memory that each needs, and the answer: a port, or an error.
static CALLS: [(&str, u32, Result<u16, KeyError>); 5] = [
    ("http://a.test:81/b?c", 5, Ok(81)),
    ("http://a.test/b", 3, Ok(80)),
    ("https://a.test/", 1, Err(KeyError::NotHttp)),
    ("nothing", 1, Err(KeyError::NotUrl)),
    ("http://[::1/", 1, Err(KeyError::NotUrl)),
];

#[test]
fn each_want_of_memory_is_answered_as_one(rt: HostRuntime) {
    for row in &CALLS {
        let (text, needed, answer) = *row;
        for calls in 0..=needed {
            let mut scarce = ScarceMemory {
                memory: CountedMemory::new(rt.alloc()),
                calls_left: calls,
                wants: 0,
            };
            let port = read_target(&mut scarce, text).map(|target| target.port);
            if calls < needed {
                assert_eq!(rt; port, Err(KeyError::Memory), "{text} after {calls} calls");
                assert_eq!(rt; scarce.wants, 1, "{text} after {calls} calls");
            } else {
                assert_eq!(rt; port, answer, "{text}");
            }
        }
    }
}

/// URLs of one site each: the table of sites grows several times.
static SITES: [&str; 10] = [
    "http://a.test/",
    "http://b.test/",
    "http://c.test/",
    "http://d.test/",
    "http://e.test/",
    "http://f.test/",
    "http://g.test/",
    "http://h.test/",
    "http://i.test/",
    "http://j.test/",
];

/// Passes whichever allocation fails: each refusal says so and changes nothing, and the call
/// succeeds when it comes again.
#[test]
fn want_of_memory_refuses_a_site(rt: HostRuntime) -> Result<(), Fail> {
    let mut sites = match Sites::new(rt.alloc()) {
        Ok(sites) => sites,
        Err(fault) => {
            check_eq(&rt, fault, SitesFault::Memory);
            Sites::new(rt.alloc())?
        }
    };
    for url in &SITES {
        let mut memory = CountedMemory::new(rt.alloc());
        let target = match read_target(&mut memory, url) {
            Ok(target) => target,
            Err(error) => {
                check_eq(&rt, error, KeyError::Memory);
                read_target(&mut memory, url)?
            }
        };
        let before = sites.len();
        let site = match sites.add(&target) {
            Ok(site) => site,
            Err(fault) => {
                check_eq(&rt, fault, SitesFault::Memory);
                check_eq(&rt, (sites.len(), sites.find(&target)), (before, None));
                sites.add(&target)?
            }
        };
        check_eq(
            &rt,
            (site as usize, sites.find(&target)),
            (before, Some(site)),
        );
    }
    check_eq(&rt, sites.len(), SITES.len());
    Ok(())
}
