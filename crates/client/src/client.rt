//! A client, and how it fetches.

ghost use Rattle.std.specs.Prelude.{◌≡◌, ◌+◌, ◌≤◌, IfOk, ⊤};
ghost use Rattle.cache.specs.PoolCalls.{DidToPool};
ghost use Rattle.exchange.specs.Worlds.{world_of};
ghost use Rattle.exchange.specs.Carrying.{EndsItsDials};
ghost use Rattle.client.specs.Fetching.{Fetches};

use crate::fetched::Fetched;
use crate::time_limit::TimeLimit;
use cache::Pool;
use exchange::{Dial, Done, Fault, Job, JobRunner, Wire};
use futures::task::{Doorbell, Solo};
use socket::SystemClock;
use std::alloc::{AllocGlobal, Global};
use std::marker::Model;
use std::random::RandomSource;
use std::time::Duration;
use std::{io, time};

/// A client of one thread: sends one request after another over a pool's connections, and gives
/// each connection back as its response says. The memory of one request serves the next.
#[derive(Drop)]
pub struct Client<'c, W: Wire, D: Dial<W> + Drop, C: time::Clock> {
    pool: Pool<W>,
    dial: D,
    clock: SystemClock<'c, C>,
    runner: JobRunner,
}

impl<'c, W: Wire, D: Dial<W> + Drop, C: time::Clock> Model for Client<'c, W, D, C> {
    ghost use Rattle.client.specs.Clients.{ClientShown};

    ghost Value = { ClientShown W D };

    ghost view = { λ client. record { pool = client.pool; dial = client.dial } };
}

impl<'c, W: Wire, D: Dial<W> + Drop, C: time::Clock> Client<'c, W, D, C> {
    /// A client over that pool, whose connections that dial opens, and which tells the time by that
    /// clock.
    ///
    /// # Errors
    ///
    /// There is no memory for it, or the system gives no random number.
    pub fn new<R: RandomSource + AllocGlobal>(
        rt: &R,
        alloc: Global,
        pool: Pool<W>,
        dial: D,
        clock: SystemClock<'c, C>,
    ) -> io::Result<Self>
        ensures pool { IfOk result (λ client. client.pool ≡ pool) }
        ensures dial { IfOk result (λ client. client.dial ≡ dial) }
    {
        let task = Solo::new(rt, Doorbell::spinning())?;
        Ok(Client {
            pool,
            dial,
            clock,
            runner: JobRunner::new(alloc, task),
        })
    }

    /// Sends the job's request and reads its response. The transfer is cancelled after that long,
    /// or if the dial's event loop or the system's clock fails. A request that there is no memory
    /// for is not sent, and ends with the fault `Memory`. A fetch opens one connection at most.
    pub fn fetch(&mut self, job: &Job, limit: Duration) -> Fetched
        ensures fetches { Fetches DidToPool (world_of W.untouched W.happened (λ moment. ⊤)) job.now
            self.old.pool self.new.pool result }
        ensures dials { EndsItsDials (D.shown self.old.dial) (D.shown self.new.dial)
            job.now.want.transfer }
    {
        let control = TimeLimit::new(&self.clock, limit);
        let ran = self
            .runner
            .run(job, &mut self.pool, &mut self.dial, &self.clock, &control);
        let Ok(ran) = ran else {
            return Fetched {
                done: Done::Bad(Fault::Memory),
                retried: false,
            };
        };
        Fetched {
            done: ran.done,
            retried: ran.retried,
        }
    }

    /// The dial that opens its connections.
    pub fn dial(&self) -> &D
        ensures { result.now ≡ self.now.dial }
    {
        &self.dial
    }

    /// Its connections.
    pub fn pool(&self) -> &Pool<W>
        ensures { result.now ≡ self.now.pool }
    {
        &self.pool
    }
}
