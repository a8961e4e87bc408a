ghost use Rattle.std.specs.Prelude.{◌≡◌, ◌-◌, ◌^◌, ◌<◌, ◌≤◌, length, IfOk};
ghost use Rattle.budget.specs.Words.{whole};
ghost use Rattle.run_loop.specs.Draws.{AreFirst, Draws, first_seat, new_seat, together};

use crate::job_draws::{ClaimRule, Drawing, Joins, Parts, Reads, Takes};
use atomic_table::{Seat, Table};
use std::alloc::{AllocError, Global};
use std::marker::Model;

/// A word from which threads draw the numbers of jobs, from 0 on. Each number is drawn once. A draw
/// is a single step, and no call waits.
#[derive(Drop)]
pub struct JobCounter {
    table: Table<(), Drawing, u64, ClaimRule, Global>,
    jobs: u64,
}

impl Model for JobCounter {
    ghost use Rattle.run_loop.specs.Draws.{Jobs};
    ghost use Rattle.run_loop.specs.Rule.{IsClaimTable};

    ghost Value = { Jobs };

    ghost view = { λ claim. record { table = claim.table.shared.table_id; jobs = claim.jobs } };

    ghost invariant = { λ claim.
        IsClaimTable claim.table.shared.table_id.words claim.table.shared.key claim.jobs };
}

/// A seat at a job counter, with which one thread at a time draws. It has a share of the whole,
/// which is lost if the seat is dropped. Contracts see what it drew.
#[derive(Drop)]
pub struct JobSeat {
    seat: Seat<(), Drawing>,
}

impl Model for JobSeat {
    ghost use Rattle.run_loop.specs.Draws.{Drawn};
    ghost use Rattle.run_loop.specs.Rule.{shown, IsClaimSeat};

    ghost Value = { Drawn };

    ghost view = { λ drawer. shown drawer.seat.table_id drawer.seat.me.0 };

    ghost invariant = { λ drawer. IsClaimSeat drawer.seat.me };
}

impl JobCounter {
    /// So many jobs, none of which is drawn, and the first seat, which has the whole share.
    ///
    /// The error is want of memory.
    pub fn new(alloc: Global, jobs: u64) -> Result<(JobCounter, JobSeat), AllocError>
        requires { jobs < 2 ^ 63 }
        ensures jobs { IfOk result (λ made. made.0.jobs ≡ jobs) }
        ensures seat { IfOk result (λ made. made.1 ≡ first_seat made.0) }
    {
        let (table, seat) = Table::of_words(alloc, &[0], &jobs)?;
        Ok((JobCounter { table, jobs }, JobSeat { seat }))
    }

    /// Draws a number: that of the next job, or, once all jobs are drawn, one past them, for which
    /// it answers nothing. A seat that was answered nothing draws no more.
    #[inline(always)]
    pub fn draw(&self, seat: &mut JobSeat) -> Option<u64>
        requires claim { seat.old.claim ≡ self.now }
        requires not_past { seat.old.past ≡ 0 }
        ensures { Draws seat.old result seat.new }
    {
        let table = &self.table.shared;
        let number = table.fetch_add::<Takes>(&mut seat.seat, 0, 1);
        if number < self.jobs {
            Some(number)
        } else {
            None
        }
    }

    /// A new seat, which has one unit of the seat's share, and has drawn nothing.
    pub fn split(&self, seat: &mut JobSeat) -> JobSeat
        requires claim { seat.old.claim ≡ self.now }
        requires units { 2 ≤ seat.old.share }
        requires past { seat.old.past < seat.old.share }
        ensures seat { seat.new ≡ record seat.old { share = seat.old.share - 1 } }
        ensures new { result ≡ new_seat self.now }
    {
        let table = &self.table.shared;
        let seat = table.split_seat::<Parts>(&mut seat.seat);
        JobSeat { seat }
    }

    /// The seat takes over the share of the other one, and what it drew.
    pub fn join(&self, seat: &mut JobSeat, other: JobSeat)
        requires claim { seat.old.claim ≡ self.now }
        requires other { other.claim ≡ self.now }
        ensures { seat.new ≡ together seat.old other }
    {
        let JobSeat { seat: others } = other;
        let table = &self.table.shared;
        table.join_seat::<Joins>(&mut seat.seat, others);
    }

    /// How many jobs were drawn, once the seat has the whole share again: these are the first ones,
    /// and each was drawn once. They are all jobs if some seat was answered nothing.
    pub fn load(&self, seat: &mut JobSeat) -> u64
        requires claim { seat.old.claim ≡ self.now }
        requires whole { seat.old.share ≡ whole }
        ensures seat { seat.new ≡ seat.old }
        ensures count { result ≡ length seat.old.drawn }
        ensures once { AreFirst result seat.old.drawn }
        ensures within { result ≤ self.now.jobs }
        ensures all { 0 < seat.old.past → AreFirst self.now.jobs seat.old.drawn }
        ensures none_left { 0 < seat.old.past → result ≡ self.now.jobs }
    {
        let table = &self.table.shared;
        let word = table.load::<Reads>(&mut seat.seat, 0);
        word.min(self.jobs)
    }
}
