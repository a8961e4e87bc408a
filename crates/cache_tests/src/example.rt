//! The program of README: requests to two hosts over one pool.

use budget::Limits;
use bundle::Acquired;
use cache::Pool;
use conn_log::Want;
use persistence::{Method, ResponseReader};
use std::test::Fail;

/// What a connection's stream would be.
#[derive(Drop)]
struct Stream;

/// A response, as it may come in two pieces.
const PIECES: [&[u8]; 2] = [b"HTTP/1.1 200 OK\r\nContent-Le", b"ngth: 2\r\n\r\nok"];

#[test]
fn the_second_request_to_a_host_reuses_its_connection(rt: HostRuntime) -> Result<(), Fail> {
    // Two hosts, 0 and 1. At most six connections are open to a host, twenty to both, and four are
    // kept idle.
    let limits = Limits::new(6, 20, 4)?;
    let mut pool = Pool::new(rt.alloc(), limits, 2)?;
    for &(transfer, site) in &[(1, 0), (2, 1), (3, 0)] {
        let now = 10 * transfer;
        let want = Want {
            transfer,
            lane: 0,
            max_age: 118,
            max_life: 0,
            fresh: false,
            forbid_reuse: false,
        };
        let mut reader = ResponseReader::new(rt.alloc(), Method::Get, false)?;
        match pool.acquire(site, want, now)? {
            Acquired::Lease(mut lease) => {
                assert_eq!(rt; lease.reused(), transfer == 3);
                if !lease.has_stream() {
                    lease.attach(Stream);
                }
                for piece in &PIECES {
                    let _ = reader.feed(piece);
                }
                pool.give_back(lease, reader.facts(), now);
            }
            // All connections that the host may have are in use: the ticket tells later whose turn
            // it is. This program does not wait.
            Acquired::Wait(ticket) => {
                if let Err(stray) = pool.withdraw(ticket, now) {
                    stray.scrap();
                }
            }
        }
    }
    assert_eq!(rt; pool.look(0)?.idle, 1);
    Ok(())
}
