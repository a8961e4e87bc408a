//! How a transfer acquires a connection.

ghost use Rattle.std.specs.Prelude.{◌≡◌, ◌<◌, ◌≤◌, length, IfOk, IfErr, OnErr, OnOk, Some, Err};
ghost use Rattle.bundle.specs.Replies.{IfGot};
ghost use Rattle.bundle.specs.Passes.{tells, acquire_did};
ghost use Rattle.shared_cache.specs.Calls.{IsAcquiredFor, IsGotFor, IsAgainstAcquire};
ghost use Rattle.shared_cache.specs.Passes.{IsPassOf, result_did, acquired_did};

use crate::cache::SharedCache;
use crate::names::Names;
use crate::serving::TRIES;
use budget::{Pass, Refusal};
use bundle::{Acquired, Booking, Did, Got, NoRoom};
use conn_log::Want;
use std::sync::Wait;

impl<S: Drop, N: Names> SharedCache<S, N> {
    /// Leases a connection of the host to the transfer: the newest idle one that fits its want,
    /// else a new one. Before that, idle ones of its lane that are too old for it are closed,
    /// unless it wants a new one. At the host's limit the host's oldest idle one makes room, and
    /// where the total has none the oldest of all, which is looked for three times at most; then
    /// the host's own. The transfer waits where none is idle at the host, and behind others that
    /// wait there. Then hosts that are queued take turns. `now` is in seconds.
    ///
    /// All memory that the lease or ticket and its end will need is taken first. Refused, in this
    /// order, with [`Refusal::BadSite`] where there is no such site, with
    /// [`Refusal::TransferBusy`] where the transfer holds a connection of the host, waits there or
    /// is halfway to one, with [`Refusal::Exhausted`] where no connection number is left, and with
    /// [`Refusal::Memory`] where memory runs out.
    ///
    /// The pass is told the entry of the start or the wait of what it gives, or that the transfer
    /// is busy or no number is left; nothing where there is no such site or memory runs out.
    ///
    /// Asked of the caller: the pass is this cache's.
    #[inline(always)]
    pub fn acquire<R: Wait>(
        &self,
        rt: &R,
        site: u32,
        want: Want,
        now: u64,
        pass: &mut Pass<Did>,
    ) -> Result<Acquired<S>, Refusal>
        requires { IsPassOf N.names pass.old }
        ensures ok { IfOk result (IsAcquiredFor N.names site want now) }
        ensures there { OnOk result (site < length N.names.hosts) }
        ensures bad_site { length N.names.hosts ≤ site → result ≡ Err Refusal.BadSite }
        ensures err { site < length N.names.hosts → IfErr result IsAgainstAcquire }
        ensures tells { pass.new ≡ tells site (result_did want.transfer result) pass.old }
        ensures pass { IsPassOf N.names pass.new }
    {
        if !self.has(site) {
            return Err(Refusal::BadSite);
        }
        let mut host = self.at(rt, site);
        let got = host.acquire(&self.budget, want, now, pass);
        // Each way lets the host's lock go first, and takes others only then.
        match got {
            Ok(Got::Lease(lease)) => {
                self.unlock(host);
                self.serve(rt, now);
                Ok(Acquired::Lease(lease))
            }
            Ok(Got::Wait(ticket)) => {
                self.unlock(host);
                self.serve(rt, now);
                Ok(Acquired::Wait(ticket))
            }
            Ok(Got::NoRoom(no_room)) => {
                self.unlock(host);
                Ok(self.acquire_with_room(rt, no_room, now, pass))
            }
            Ok(Got::Again(booking)) => {
                self.unlock(host);
                Ok(self.acquire_again(rt, booking, now, pass))
            }
            Err(refusal) => {
                self.unlock(host);
                Err(refusal)
            }
        }
    }

    // Where the total has no room. Inlined, so that the room for what it moves is cleared here, and
    // not before each acquire; what it does is not, so that an acquire stays small.
    #[inline(always)]
    fn acquire_with_room<R: Wait>(
        &self,
        rt: &R,
        no_room: NoRoom,
        now: u64,
        pass: &mut Pass<Did>,
    ) -> Acquired<S>
        requires there { no_room.site < length N.names.hosts }
        requires pass { IsPassOf N.names pass.old }
        ensures acquired { IsAcquiredFor N.names no_room.site no_room.want now result }
        ensures tells { pass.new ≡ tells no_room.site (Some (acquired_did result)) pass.old }
        ensures pass { IsPassOf N.names pass.new }
    {
        let acquired = self.start_with_room(rt, no_room, now, pass, TRIES);
        self.serve(rt, now);
        acquired
    }

    // Where another thread had changed the total. Inlined, as above.
    #[inline(always)]
    fn acquire_again<R: Wait>(
        &self,
        rt: &R,
        booking: Booking,
        now: u64,
        pass: &mut Pass<Did>,
    ) -> Acquired<S>
        requires there { booking.site < length N.names.hosts }
        requires pass { IsPassOf N.names pass.old }
        ensures acquired { IsAcquiredFor N.names booking.site booking.want now result }
        ensures tells { pass.new ≡ tells booking.site (Some (acquired_did result)) pass.old }
        ensures pass { IsPassOf N.names pass.new }
    {
        let acquired = self.start_again(rt, booking, now, pass);
        self.serve(rt, now);
        acquired
    }

    // Tries again where another thread had changed the total, before hosts take turns.
    #[cold]
    #[inline(never)]
    fn start_again<R: Wait>(
        &self,
        rt: &R,
        booking: Booking,
        now: u64,
        pass: &mut Pass<Did>,
    ) -> Acquired<S>
        requires there { booking.site < length N.names.hosts }
        requires pass { IsPassOf N.names pass.old }
        ensures acquired { IsAcquiredFor N.names booking.site booking.want now result }
        ensures tells { pass.new ≡ tells booking.site (Some (acquired_did result)) pass.old }
        ensures pass { IsPassOf N.names pass.new }
    {
        let tried = self.try_again(rt, booking, now, pass);
        match tried {
            Ok(acquired) => acquired,
            Err(no_room) => self.start_with_room(rt, no_room, now, pass, TRIES),
        }
    }

    // Tries again where the total has no room: so many times at most the oldest idle connection of
    // all is closed before, and then it is the last try.
    #[cold]
    #[inline(never)]
    fn start_with_room<R: Wait>(
        &self,
        rt: &R,
        no_room: NoRoom,
        now: u64,
        pass: &mut Pass<Did>,
        tries: u32,
    ) -> Acquired<S>
        requires there { no_room.site < length N.names.hosts }
        requires pass { IsPassOf N.names pass.old }
        ensures acquired { IsAcquiredFor N.names no_room.site no_room.want now result }
        ensures tells { pass.new ≡ tells no_room.site (Some (acquired_did result)) pass.old }
        ensures pass { IsPassOf N.names pass.new }
    {
        let (booking, short) = no_room.part();
        if tries == 0 || !self.make_room(rt, short, now) {
            return self.start_at_last(rt, booking, now, pass);
        }
        let tried = self.try_again(rt, booking, now, pass);
        match tried {
            Ok(acquired) => acquired,
            Err(no_room) => self.start_with_room(rt, no_room, now, pass, tries - 1),
        }
    }

    // Tries again, as long as another thread changed the total meanwhile; the booking comes back
    // where the total has no room.
    fn try_again<R: Wait>(
        &self,
        rt: &R,
        booking: Booking,
        now: u64,
        pass: &mut Pass<Did>,
    ) -> Result<Acquired<S>, NoRoom>
        requires there { booking.site < length N.names.hosts }
        requires pass { IsPassOf N.names pass.old }
        ensures ok { IfOk result (IsAcquiredFor N.names booking.site booking.want now) }
        ensures told { IfOk result (λ acquired. pass.new
            ≡ tells booking.site (Some (acquired_did acquired)) pass.old) }
        ensures err { IfErr result (λ same. same ≡ booking) }
        ensures untold { OnErr result (pass.new ≡ pass.old) }
        ensures pass { IsPassOf N.names pass.new }
    {
        let mut halfway = booking;
        for _ in rt.forever() {
            let mut host = self.at_booked(rt, &halfway);
            let got = host.retry(&self.budget, halfway, now, pass);
            self.unlock(host);
            match got {
                Got::Lease(lease) => return Ok(Acquired::Lease(lease)),
                Got::Wait(ticket) => return Ok(Acquired::Wait(ticket)),
                Got::NoRoom(no_room) => return Err(no_room),
                Got::Again(booking) => halfway = booking,
            }
        }
        unreachable!()
    }

    // The last try, with the queue's lock taken too: it comes to a start or a wait.
    fn start_at_last<R: Wait>(
        &self,
        rt: &R,
        booking: Booking,
        now: u64,
        pass: &mut Pass<Did>,
    ) -> Acquired<S>
        requires there { booking.site < length N.names.hosts }
        requires pass { IsPassOf N.names pass.old }
        ensures acquired { IsAcquiredFor N.names booking.site booking.want now result }
        ensures tells { pass.new ≡ tells booking.site (Some (acquired_did result)) pass.old }
        ensures pass { IsPassOf N.names pass.new }
    {
        let mut halfway = booking;
        for _ in rt.forever() {
            let mut host = self.at_booked(rt, &halfway);
            let mut queue = self.queue.lock(rt);
            let (budget, link) = (&self.budget, &self.link);
            let got = host.retry_at_last(budget, link, &mut queue, halfway, now, pass);
            self.note_queue(&queue);
            self.unlock(host);
            match got {
                Got::Lease(lease) => return Acquired::Lease(lease),
                Got::Wait(ticket) => return Acquired::Wait(ticket),
                Got::NoRoom(no_room) => {
                    let (booking, _short) = no_room.part();
                    halfway = booking;
                }
                Got::Again(booking) => halfway = booking,
            }
        }
        unreachable!()
    }
}
