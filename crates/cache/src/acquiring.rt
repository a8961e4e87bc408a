//! How a transfer acquires a connection.

ghost use Rattle.std.specs.Prelude.{◌≡◌, ◌<◌, length, IfOk, IfErr, IfSome};
ghost use Rattle.host_state.specs.Calls.{refusal};
ghost use Rattle.bundle.specs.Lease.{IsBookedHere};
ghost use Rattle.cache.specs.AllHosts.{total, with_room};
ghost use Rattle.cache.specs.Calls.{acquired, started};
ghost use Rattle.cache.specs.Pools.{host_at, all_hosts};
ghost use Rattle.cache.specs.PoolCalls.{AcquiresBy, EndsAcquire, IsReason};

use crate::hosts::Hosts;
use budget::Refusal;
use bundle::{Acquired, Got, NoRoom};
use conn_log::Want;

impl<S: Drop> Hosts<S> {
    /// Leases a connection of the host to the transfer, or begins its wait there. If the host has
    /// room and the total has none, it evicts the oldest idle connection of all. `now` is in
    /// seconds. Refused as [`bundle::Bundle::acquire`] is.
    #[inline(always)]
    pub fn acquire(&mut self, site: u32, want: Want, now: u64) -> Result<Acquired<S>, Refusal>
        requires there { site < length self.old.hosts }
        ensures done { let end = acquired self.old.limits site want now (all_hosts self.old) in
            IfOk result (AcquiresBy site want end.all end.reply self.old self.new) }
        ensures refused { let host = host_at self.old site in
            let due = refusal host.settings host.log host.booked want in
            IfErr result (λ reason. (self.new ≡ self.old) × IsReason due reason) }
        ensures due { let host = host_at self.old site in
            let due = refusal host.settings host.log host.booked want in
            IfSome due (λ reason. result ≡ Err reason) }
    {
        let bundle = &mut self.bundles[site as usize];
        let mut permits = self.budget.at(site);
        let got = bundle.acquire(want, now, &mut permits, &mut self.pass);
        match got {
            Ok(Got::Lease(lease)) => Ok(Acquired::Lease(lease)),
            Ok(Got::Wait(ticket)) => Ok(Acquired::Wait(ticket)),
            Ok(Got::NoRoom(booking)) => Ok(self.start_with_room(booking, now)),
            // The budget of one thread need not be asked again.
            Ok(Got::Again(_booking)) => unreachable!(),
            Err(refusal) => Err(refusal),
        }
    }

    // Ends an acquire for which the total has no room. Inlined, so that the memory for the values
    // that it moves is cleared here, and not before each acquire; its work is out of line, so that
    // an acquire stays small.
    #[inline(always)]
    fn start_with_room(&mut self, booking: NoRoom, now: u64) -> Acquired<S>
        requires there { booking.site < length self.old.hosts }
        requires here { IsBookedHere (host_at self.old booking.site) booking }
        requires full { total (all_hosts self.old) ≡ self.old.limits.total }
        ensures { let roomy = with_room self.old.limits now (all_hosts self.old) in
            let end = started self.old.limits booking.site booking.want now roomy in
            EndsAcquire booking.site booking.want end.all end.reply self.old self.new result }
    {
        self.start_in_place_of_oldest(booking, now)
    }

    // Evicts the oldest idle connection of all, if there is one, and tries the acquire for the last
    // time.
    #[cold]
    #[inline(never)]
    fn start_in_place_of_oldest(&mut self, booking: NoRoom, now: u64) -> Acquired<S>
        requires there { booking.site < length self.old.hosts }
        requires here { IsBookedHere (host_at self.old booking.site) booking }
        requires full { total (all_hosts self.old) ≡ self.old.limits.total }
        ensures { let roomy = with_room self.old.limits now (all_hosts self.old) in
            let end = started self.old.limits booking.site booking.want now roomy in
            EndsAcquire booking.site booking.want end.all end.reply self.old self.new result }
    {
        let (halfway, short) = booking.part();
        let site = halfway.site();
        self.close_oldest(short, now);
        let bundle = &mut self.bundles[site as usize];
        let mut permits = self.budget.at(site);
        let lobby = Some(&mut self.lobby);
        let got = bundle.retry(halfway, now, &mut permits, lobby, &mut self.pass);
        match got {
            Got::Lease(lease) => Acquired::Lease(lease),
            Got::Wait(ticket) => Acquired::Wait(ticket),
            // The last try comes to a start or a wait.
            Got::NoRoom(_booking) => unreachable!(),
            Got::Again(_booking) => unreachable!(),
        }
    }
}
