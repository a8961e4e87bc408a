//! Many connections at once, and many requests on one of them.

use crate::checks::check_eq;
use crate::servers::beside::beside;
use crate::servers::connection::{Connection, REQUEST};
use loopback_server::Server;
use std::alloc::AllocGlobal;
use std::test::Fail;
use std::thread::{Threads, join};
use std::time::Duration;
use std::{io, thread};

/// How many sites there are.
const SITES: u32 = 8;

/// How many connections each site has.
const EACH: usize = 32;

#[test]
fn many_connections_are_answered(rt: HostRuntime) -> Result<(), Fail> {
    let server = Server::listen(&rt, rt.alloc(), SITES)?;
    let mut ports = Vec::new(rt.alloc());
    ports.extend_from_slice(server.ports())?;
    check_eq(&rt, ports.len(), 8);
    beside(&rt, server, || -> io::Result<()> {
        let mut clients = Vec::new(rt.alloc());
        for _ in 0..EACH {
            for port in ports.as_slice() {
                clients.push(Connection::connect(&rt, *port)?)?;
            }
        }
        for _ in 0..3 {
            for client in clients.iter() {
                client.send(REQUEST, 20)?;
            }
            for client in clients.iter() {
                check_eq(&rt, client.answers(1), 1);
            }
        }
        Ok(())
    })?;
    Ok(())
}

/// How many requests are sent before an answer is read. Their answers are more bytes than the
/// system keeps for a connection.
const UNREAD: usize = 400_000;

/// How many of these go in one write.
const AT_ONCE: usize = 200;

/// How many milliseconds nothing is read.
const LATE: u64 = 300;

#[test]
fn a_peer_that_reads_late_gets_all(rt: HostRuntime) -> Result<(), Fail> {
    let server = Server::listen(&rt, rt.alloc(), 1)?;
    let port = server.ports()[0];
    let mut block = Vec::new(rt.alloc());
    for _ in 0..AT_ONCE {
        block.extend_from_slice(b"GET / HTTP/1.1\r\n\r\n")?;
    }
    beside(&rt, server, || -> io::Result<()> {
        let client = Connection::connect(&rt, port)?;
        let (sent, answers) = join(
            &rt,
            || -> io::Result<()> {
                for _ in 0..UNREAD / AT_ONCE {
                    client.send(block.as_slice(), block.len())?;
                }
                Ok(())
            },
            || {
                thread::sleep(&rt, Duration::from_millis(LATE));
                client.answers(UNREAD)
            },
        );
        sent?;
        check_eq(&rt, answers, UNREAD);
        Ok(())
    })?;
    Ok(())
}
