//! The addresses of hosts: those that the words give, and those that the system knows.

ghost use Rattle.std.specs.Prelude.{◌≡◌, ◌++◌, IfErr, IfOk, IfNone, IfSome, codes};
ghost use Rattle.std.specs.Prelude.{ℕ, List, option_map, MatchOption};
ghost use Rattle.std.specs.List.{Any};
ghost use Rattle.std.specs.declared.net.ip_addr.IpAddr.{IpAddr};
ghost use Rattle.socket.specs.Hosts.{in_brackets};
ghost use Rattle.clap.specs.Words.{found_of, rows_of};
ghost use Rattle.command_line.specs.Numbers.{whole_in};
ghost use Rattle.command_line.specs.Options.{texts_said};
ghost use Rattle.command_line.specs.Refusals.{IsWhy};
ghost use Rattle.command_line.specs.Resolving.{AreResolved, IsAddressText, IsNoResolve};
ghost use Rattle.command_line.specs.Resolving.{Resolves, cut_at, host_said};
ghost use Rattle.command_line.specs.Resolving.{is_colon, resolve_said, said_by};

use crate::options::RESOLVE;
use crate::refusal::Refusal;
use crate::values::texts;
use clap::ArgMatches;
use commands::{Escaped, Resolved};
use std::alloc::{AllocError, Global};
use std::net::{IpAddr, Ipv6Addr, SocketAddr};
use streams::number_of;

/// Returns the addresses that the words give for hosts.
///
/// # Errors
///
/// `Wrong` if a value of `--resolve` is not `HOST:PORT:ADDRESS`, `Memory` if memory ran out.
pub(crate) fn given_hosts(alloc: Global, given: &ArgMatches<'_>) -> Result<Vec<Resolved>, Refusal>
    ensures hosts { IfOk result (λ hosts.
        AreResolved (texts_said (codes "resolve") (rows_of (found_of given.now))) hosts.items) }
    ensures refused { IfErr result (IsWhy (Any IsNoResolve
        (texts_said (codes "resolve") (rows_of (found_of given.now))))) }
{
    let values = texts(alloc, given, &RESOLVE)?;
    let mut hosts = Vec::new(alloc);
    for value in values.as_slice() {
        let text = value.as_str();
        let Some(host) = parse_resolve(alloc, text)? else {
            let shown = Escaped(text);
            let message = format!(in alloc;
                "invalid value '{shown}' for '--resolve <HOST:PORT:ADDRESS>': \
                not HOST:PORT:ADDRESS"
            )?;
            return Err(Refusal::Wrong(message));
        };
        let Ok(()) = hosts.push(host) else {
            return Err(Refusal::Memory);
        };
    }
    Ok(hosts)
}

// Parses a value of `--resolve`; `None` if it is not `HOST:PORT:ADDRESS`.
fn parse_resolve(alloc: Global, text: &str) -> Result<Option<Resolved>, AllocError>
    ensures { IfOk result (λ found. MatchOption found (IsNoResolve text.now) (Resolves text.now)) }
{
    let Some(parts) = resolve_parts(text) else {
        return Ok(None);
    };
    let Some(ip) = ip_of(parts.address.as_bytes()) else {
        return Ok(None);
    };
    let mut host = String::from_str(alloc, parts.name)?;
    host.push_str(parts.end)?;
    let address = SocketAddr::new(ip, parts.port);
    Ok(Some(Resolved { host, address }))
}

/// The parts of `HOST:PORT:ADDRESS`.
#[derive(Clone, Copy)]
struct ResolveText<'a> {
    /// The host, but for a bracket at its end.
    name: &'a str,
    /// That bracket, or nothing.
    end: &'a str,
    port: u16,
    /// The text of the address.
    address: &'a str,
}

// Returns the parts of `HOST:PORT:ADDRESS`, whose address may be none; `None` if the text has
// another form.
fn resolve_parts(text: &str) -> Option<ResolveText<'_>>
    ensures { option_map said_by result ≡ resolve_said text.now }
{
    let (name, end, rest) = host_of(text)?;
    let (port, address) = split_at_colon(rest)?;
    let port = port_of(port)?;
    Some(ResolveText {
        name,
        end,
        port,
        address,
    })
}

// Returns the host before the first colon, or in brackets, of which the last one is the second
// text; and the text after its colon. The host is not empty.
fn host_of(text: &str) -> Option<(&str, &str, &str)>
    ensures { option_map (λ it. (it.0.now ++ it.1.now, it.2.now)) result ≡ host_said text.now }
{
    if text.starts_with('[') {
        let (name, rest) = text.split_once(']')?;
        let (between, rest) = split_at_colon(rest)?;
        if between.is_empty() {
            return Some((name, "]", rest));
        }
        return None;
    }
    let (name, rest) = split_at_colon(text)?;
    if name.is_empty() {
        None
    } else {
        Some((name, "", rest))
    }
}

// Returns the text before the first colon, and the text after it.
fn split_at_colon(text: &str) -> Option<(&str, &str)>
    ensures { option_map (λ it. (it.0.now, it.1.now)) result ≡ cut_at is_colon text.now }
{
    text.split_once(':')
}

// Returns the port that a text is.
fn port_of(text: &str) -> Option<u16>
    ensures { result ≡ whole_in 1 65535 text.now }
{
    let number = number_of(text.as_bytes())?;
    if 1 <= number && number <= 65_535 {
        Some(number as u16)
    } else {
        None
    }
}

// Returns the address that a text writes; an IPv6 address may be in brackets.
fn ip_of(text: &[u8]) -> Option<IpAddr>
    ensures some { IfSome result (IsAddressText text.now) }
    ensures none { IfNone result ((ip : IpAddr) → IsAddressText text.now ip → ⊥) }
{
    if let Ok(ip) = IpAddr::parse_ascii(text) {
        return Some(ip);
    }
    match Ipv6Addr::parse_ascii(inside_of(text)?) {
        Ok(ip) => Some(IpAddr::V6(ip)),
        Err(_) => None,
    }
}

// Returns the text in brackets.
fn inside_of(text: &[u8]) -> Option<&[u8]>
    ensures some { IfSome result (λ inside. text.now ≡ in_brackets inside.now) }
    ensures none { IfNone result ((inside : List ℕ) → text.now ≡ in_brackets inside → ⊥) }
{
    match text {
        [b'[', inside @ .., b']'] => Some(inside),
        _ => None,
    }
}
