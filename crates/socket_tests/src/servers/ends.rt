//! How connections and the server end.

use crate::checks::check_eq;
use crate::servers::beside::beside;
use crate::servers::connection::{Connection, REQUEST};
use loopback_server::Server;
use std::alloc::AllocGlobal;
use std::io;

#[test]
fn what_a_peer_asked_before_its_end_is_answered(rt: HostRuntime) {
    let server = Server::listen(&rt, rt.alloc(), 1).expect(&rt, "memory");
    let port = server.ports()[0];
    beside(&rt, server, || -> io::Result<()> {
        let client = Connection::connect(&rt, port).expect(&rt, "memory");
        client.send(REQUEST, 100).expect(&rt, "memory");
        client.send(b"GET /", 100).expect(&rt, "memory");
        client.end().expect(&rt, "memory");
        check_eq(&rt, client.answers(2), 1);
        assert!(rt; client.is_ended());
        Ok(())
    })
    .expect(&rt, "memory");
}

#[test]
fn the_server_ends_with_its_connections(rt: HostRuntime) {
    let server = Server::listen(&rt, rt.alloc(), 2).expect(&rt, "memory");
    let port = server.ports()[1];
    let client = beside(&rt, server, || -> io::Result<Connection> {
        let client = Connection::connect(&rt, port).expect(&rt, "memory");
        client.send(REQUEST, 100).expect(&rt, "memory");
        check_eq(&rt, client.answers(1), 1);
        Ok(client)
    })
    .expect(&rt, "memory");
    assert!(rt; client.is_ended());
    assert!(rt; Connection::connect(&rt, port).is_err());
}
