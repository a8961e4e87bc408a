//! Sites in the order in which they were added, and what finding one costs: valgrind's callgrind
//! counts the instructions of `finds_each` (docs/measurements.md).
use crate::checks::check_eq;
use crate::urls::targets::read_again;
use conn_key::{CountedMemory, Key, Sites, SitesFault, Target, read_target};
use std::alloc::Global;
use std::collections::HashMap;
use std::process::Abort;
use std::test::Fail;

#[test]
fn a_key_is_ordered_by_site_and_then_lane(rt: HostRuntime) -> Result<(), Fail> {
    let key = Key { site: 1, lane: 2 };
    assert!(rt; Key { site: 0, lane: 3 } < key);
    assert!(rt; key < Key { site: 1, lane: 3 });
    let mut named = HashMap::new(rt.alloc());
    named.insert(key, "here")?;
    check_eq(
        &rt,
        named.get(&Key { site: 1, lane: 2 }).copied(),
        Some("here"),
    );
    check_eq(&rt, named.get(&Key { site: 2, lane: 1 }).copied(), None);
    Ok(())
}

/// The index of the target's site, added once more where memory ran out, which changes nothing.
fn add_again(rt: &impl Abort, sites: &mut Sites, target: &Target) -> Result<u32, SitesFault> {
    let len = sites.len();
    match sites.add(target) {
        Err(SitesFault::Memory) => {
            check_eq(rt, sites.len(), len);
            check_eq(rt, sites.find(target), None);
            sites.add(target)
        }
        added => added,
    }
}

/// URLs in the order in which their sites are added, and the index of each.
static ADDED: [(&str, u32); 7] = [
    ("HTTP://Example.COM/a?b=1", 0),
    ("http://a.test/", 1),
    ("HTTP://Example.COM/a?b=1", 0),
    ("http://a.test:80/other", 1),
    ("http://a.test:81/", 2),
    ("http://b.test:81/", 3),
    ("http://a.test:81/?b", 2),
];

/// No sites, made once more where memory ran out.
fn new_again(alloc: Global) -> Result<Sites, SitesFault> {
    match Sites::new(alloc) {
        Ok(sites) => Ok(sites),
        Err(_) => Sites::new(alloc),
    }
}

/// Adds the site of the URL, which has the index from then on.
fn check_added(
    rt: &impl Abort,
    alloc: Global,
    sites: &mut Sites,
    text: &str,
    index: u32,
) -> Result<(), Fail> {
    let target = read_again(alloc, text)?;
    assert_eq!(rt; add_again(rt, sites, &target)?, index, "adding {text}");
    assert_eq!(rt; sites.find(&target), Some(index), "finding {text}");
    Ok(())
}

/// Checks what is there once all are added.
fn check_all_added(rt: &impl Abort, sites: &Sites) -> Result<(), Fail> {
    check_eq(rt, sites.len(), 4);
    assert!(rt; !sites.is_empty());
    let site = sites.get(2).ok_or("no third site")?;
    check_eq(rt, site.host(), "a.test");
    check_eq(rt, site.port(), 81);
    assert!(rt; sites.get(4).is_none());
    Ok(())
}

#[test]
fn a_site_is_a_host_and_a_port(rt: HostRuntime) -> Result<(), Fail> {
    let mut sites = new_again(rt.alloc())?;
    assert!(rt; sites.is_empty());
    for row in &ADDED {
        let (text, index) = *row;
        check_added(&rt, rt.alloc(), &mut sites, text, index)?;
    }
    check_all_added(&rt, &sites)?;
    let other = read_again(rt.alloc(), "http://b.test/")?;
    check_eq(&rt, sites.find(&other), None);
    Ok(())
}

/// Adds the site of the host whose name has that number, and its target.
fn add_host(
    alloc: Global,
    number: u32,
    targets: &mut Vec<Target>,
    sites: &mut Sites,
) -> Result<(), Fail> {
    let text = format!(in alloc; "http://host-{number}.test/")?;
    let target = read_target(&mut CountedMemory::new(alloc), text.as_str())?;
    sites.add(&target)?;
    targets.push(target)?;
    Ok(())
}

/// Targets at so many hosts, with names of one length, and their sites.
fn hosts(alloc: Global, count: u32) -> Result<(Vec<Target>, Sites), Fail> {
    let mut targets = Vec::new(alloc);
    let mut sites = Sites::new(alloc)?;
    for n in 0..count.min(8000) {
        add_host(alloc, 1000 + n, &mut targets, &mut sites)?;
    }
    Ok((targets, sites))
}

/// Whether each target is found at its own index. A count of its instructions tells what finding
/// costs, so it isn't inlined.
#[inline(never)]
fn finds_each(sites: &Sites, targets: &[Target]) -> bool {
    targets
        .iter()
        .zip(0..1024u32)
        .all(|(target, index)| sites.find(target) == Some(index))
}

#[test]
fn each_of_8_sites_is_found(rt: HostRuntime) -> Result<(), Fail> {
    let (targets, sites) = hosts(rt.alloc(), 8)?;
    assert!(rt; finds_each(&sites, targets.as_slice()));
    Ok(())
}

/// Checks that the target's site, which is new, is refused by 1,024 that are there.
fn check_refused(rt: &impl Abort, sites: &mut Sites, target: &Target) {
    check_eq(rt, sites.add(target), Err(SitesFault::TooMany));
    check_eq(rt, sites.find(target), None);
    check_eq(rt, sites.len(), 1024);
}

#[test]
fn at_most_1024_sites_are_kept(rt: HostRuntime) -> Result<(), Fail> {
    let (targets, mut sites) = hosts(rt.alloc(), 1024)?;
    assert!(rt; finds_each(&sites, targets.as_slice()));
    let more = read_again(rt.alloc(), "http://host-999.test/")?;
    check_refused(&rt, &mut sites, &more);
    check_added(&rt, rt.alloc(), &mut sites, "http://host-1700.test/b", 700)
}
