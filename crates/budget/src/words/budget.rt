ghost use Rattle.std.specs.Prelude.{◌≡◌, ℕ, ◌+◌, ◌<◌, ◌≤◌, [], IfOk, IfErr};
ghost use Rattle.budget.specs.Words.{empty_seat, one_less, on_total, on_kept, after_split};
ghost use Rattle.budget.specs.Words.{joined_and_compared, whole};
ghost use Rattle.budget.specs.Words.{seated, held_by, TriesOpen, TriesKept};
ghost use Rattle.budget.specs.Words.{Looks, total_of, kept_of};

use crate::limits::Limits;
use crate::permits::{Held, Try};
use crate::refusal::Refusal;
use crate::words::rule::{
    BudgetRule, ComparesKept, ComparesTotal, GivesKept, GivesOpen, Joins, Limited, LooksAtKept,
    LooksAtTotal, Parts, TakesKept, TakesOpen,
};
use crate::words::view::SeatView;
use atomic_table::{Seat, Table};
use std::alloc::Global;
use std::marker::{Brand, Model, PhantomData};

// The word that counts open connections, and the one that counts kept ones.
const TOTAL: usize = 0;

const KEPT: usize = 1;

/// How many connections are open in total and how many are kept, as two words that threads step on,
/// each step single: a load, an exchange to one more, or a subtraction of one. Between any two
/// steps each word is the sum of what the seats hold, and is not above its limit. No call waits.
///
/// `K` is the key of who may ask for a permit: a type that only those can make.
#[derive(Drop)]
pub struct WordBudget<K> {
    table: Table<(), SeatView, Limits, BudgetRule, Global>,
    limits: Limits,
    of: PhantomData<K>,
}

impl<K> Model for WordBudget<K> {
    ghost use Rattle.std.specs.Prelude.{◌≡◌};
    ghost use Rattle.budget.specs.Words.{Shared};

    ghost Value = { Shared };

    ghost view = { λ budget. record {
      table = budget.table.shared.table_id;
      limits = budget.limits;
    } };

    ghost invariant = { λ budget. record {
      words : budget.table.shared.table_id.words ≡ 2;
      slots : budget.table.shared.table_id.slots ≡ 0;
      limits : budget.table.shared.key ≡ budget.limits;
    } };
}

/// A seat at a word budget, which one thread at a time steps with. It holds permits, has a share of
/// the whole, and remembers what its last loads read.
#[derive(Drop)]
pub struct BudgetSeat<K> {
    seat: Seat<(), SeatView>,
    alive: u32,
    kept: u32,
    seen: Seen,
    of: PhantomData<K>,
}

impl<K> Model for BudgetSeat<K> {
    ghost use Rattle.std.specs.Prelude.{◌≡◌, ◌<◌, ◌≤◌, []};
    ghost use Rattle.budget.specs.Words.{SeatShown};

    ghost Value = { SeatShown };

    ghost view = { λ shown. record {
      table = shown.seat.table_id;
      number = shown.seat.id;
      view = shown.seat.me.0;
    } };

    ghost invariant = { λ shown. record {
      slots : shown.seat.me.1 ≡ [];
      share : 0 < shown.seat.me.0.share;
      alive : shown.alive ≡ shown.seat.me.0.total.held;
      kept : shown.kept ≡ shown.seat.me.0.kept.held;
      alive_fits : shown.seat.me.0.total.held ≤ 65535;
      kept_fits : shown.seat.me.0.kept.held ≤ 65535;
      seen_total : shown.seen.total ≡ shown.seat.me.0.total.seen;
      seen_kept : shown.seen.kept ≡ shown.seat.me.0.kept.seen;
    } };
}

/// What the last loads of a seat read, 0 before any.
#[derive(Clone, Copy, Debug, PartialEq, Eq)]
pub struct Seen {
    /// Of the number of open connections.
    pub total: u64,
    /// Of the number of kept connections.
    pub kept: u64,
}

/// The words of a budget that is finished.
#[derive(Clone, Copy, Debug, PartialEq, Eq)]
pub struct Words {
    /// The number of open connections.
    pub total: u64,
    /// The number of kept connections.
    pub kept: u64,
}

impl<K> WordBudget<K> {
    /// A budget under these limits, and its first seat: it holds nothing and has the whole share.
    ///
    /// The only refusal is [`Refusal::Memory`].
    pub fn new(alloc: Global, limits: Limits) -> Result<(WordBudget<K>, BudgetSeat<K>), Refusal>
        ensures limits { IfOk result (λ made. made.0.limits ≡ limits) }
        ensures table { IfOk result (λ made. made.1.table ≡ made.0.table) }
        ensures seat { IfOk result (λ made. made.1.view ≡ empty_seat whole) }
        ensures err { IfErr result (λ refusal. refusal ≡ Refusal.Memory) }
    {
        let _connects = limits.connects();
        let (table, seat) = Table::of_words(alloc, &[0, 0], &limits)?;
        let budget = WordBudget {
            table,
            limits,
            of: PhantomData,
        };
        Ok((budget, BudgetSeat::new(seat)))
    }

    /// Asks for one more open connection: one load, and below the limit one exchange.
    /// Full where the load read the limit, Contended where the exchange found another value.
    #[inline(always)]
    pub fn try_open(&self, seat: &mut BudgetSeat<K>, _key: &K) -> Try
        requires { seat.old.table ≡ self.now.table }
        ensures { TriesOpen self.now.limits.total seat.old result seat.new }
    {
        let table = &self.table.shared;
        let total = load_total::<Brand>(&self.table, &mut seat.seat);
        seat.seen.total = total;
        if total == u64::from(self.limits.total()) {
            return Try::Full;
        }
        let found = table.compare_exchange::<TakesOpen>(&mut seat.seat, TOTAL, total, total + 1);
        if found != total {
            return Try::Contended;
        }
        seat.alive += 1;
        Try::Got
    }

    /// Gives back the permit of one open connection: one subtraction.
    #[inline(always)]
    pub fn free_open(&self, seat: &mut BudgetSeat<K>)
        requires table { seat.old.table ≡ self.now.table }
        requires one { 0 < seat.old.view.total.held }
        ensures { seat.new ≡ seated seat.old (on_total one_less seat.old.view) }
    {
        self.table
            .shared
            .fetch_sub::<GivesOpen>(&mut seat.seat, TOTAL, 1);
        seat.alive -= 1;
    }

    /// Asks to keep one more connection: one load, and below the limit one exchange.
    /// Full where the load read the limit, Contended where the exchange found another value.
    #[inline(always)]
    pub fn try_keep(&self, seat: &mut BudgetSeat<K>, _key: &K) -> Try
        requires { seat.old.table ≡ self.now.table }
        ensures { TriesKept self.now.limits.connects seat.old result seat.new }
    {
        let table = &self.table.shared;
        let kept = load_kept::<Brand>(&self.table, &mut seat.seat);
        seat.seen.kept = kept;
        if kept == u64::from(self.limits.connects()) {
            return Try::Full;
        }
        let found = table.compare_exchange::<TakesKept>(&mut seat.seat, KEPT, kept, kept + 1);
        if found != kept {
            return Try::Contended;
        }
        seat.kept += 1;
        Try::Got
    }

    /// Gives back the permit of one kept connection: one subtraction.
    #[inline(always)]
    pub fn free_keep(&self, seat: &mut BudgetSeat<K>)
        requires table { seat.old.table ≡ self.now.table }
        requires one { 0 < seat.old.view.kept.held }
        ensures { seat.new ≡ seated seat.old (on_kept one_less seat.old.view) }
    {
        self.table
            .shared
            .fetch_sub::<GivesKept>(&mut seat.seat, KEPT, 1);
        seat.kept -= 1;
    }

    /// What the seat's last loads read, 0 before any.
    pub fn seen(&self, seat: &BudgetSeat<K>) -> Seen
        ensures total { result.total ≡ seat.now.view.total.seen }
        ensures kept { result.kept ≡ seat.now.view.kept.seen }
    {
        seat.seen
    }

    /// Whether any connection is kept at this moment, over all seats. No seat notes it, and other
    /// threads may change it at once, so that no contract says anything of it: use it as a hint.
    pub fn keeps_any(&self) -> bool {
        self.table.shared.peek(KEPT) != 0
    }

    /// A new seat, with one unit of the seat's share and no permit.
    pub fn split(&self, seat: &mut BudgetSeat<K>) -> BudgetSeat<K>
        requires table { seat.old.table ≡ self.now.table }
        requires units { 2 ≤ seat.old.view.share }
        ensures seat { seat.new ≡ seated seat.old (after_split seat.old.view) }
        ensures new { (result.table ≡ seat.old.table) × (result.view ≡ empty_seat 1) }
    {
        BudgetSeat::new(self.table.shared.split_seat::<Parts>(&mut seat.seat))
    }

    /// The seat takes over the share and the permits of the other one.
    pub fn join(&self, seat: &mut BudgetSeat<K>, other: BudgetSeat<K>)
        requires table { seat.old.table ≡ self.now.table }
        requires other { other.table ≡ self.now.table }
        ensures { seat.new ≡ seated seat.old (joined_and_compared seat.old.view other.view) }
    {
        let BudgetSeat {
            seat: others,
            alive,
            kept,
            seen: _,
            of: _,
        } = other;
        let table = &self.table.shared;
        table.join_seat::<Joins>(&mut seat.seat, others);
        // Each word is at least what the seat now holds, so that these sums fit.
        table.load::<ComparesTotal>(&mut seat.seat, TOTAL);
        table.load::<ComparesKept>(&mut seat.seat, KEPT);
        seat.alive += alive;
        seat.kept += kept;
    }

    /// The two words at the end, neither above its limit. The seat has the whole share, so they are
    /// what it holds.
    pub fn finish(self, seat: BudgetSeat<K>) -> Words
        requires table { seat.table ≡ self.table }
        requires all { seat.view.share ≡ whole }
        ensures total { result.total ≡ seat.view.total.held }
        ensures kept { result.kept ≡ seat.view.kept.held }
        ensures total_within { result.total ≤ self.limits.total }
        ensures kept_within { result.kept ≤ self.limits.connects }
    {
        let WordBudget {
            table,
            limits: _,
            of: _,
        } = self;
        let BudgetSeat {
            seat,
            alive: _,
            kept: _,
            seen: _,
            of: _,
        } = seat;
        let closed = table.close_with(seat);
        let words = Words {
            total: closed.word(TOTAL),
            kept: closed.word(KEPT),
        };
        closed.free();
        words
    }
}

impl<K> BudgetSeat<K> {
    // A seat that holds nothing yet.
    fn new(seat: Seat<(), SeatView>) -> BudgetSeat<K>
        requires slots { seat.me.1 ≡ [] }
        requires share { 0 < seat.me.0.share }
        requires nothing { seat.me.0 ≡ empty_seat seat.me.0.share }
        ensures table { result.table ≡ seat.table_id }
        ensures number { result.number ≡ seat.id }
        ensures view { result.view ≡ seat.me.0 }
    {
        BudgetSeat {
            seat,
            alive: 0,
            kept: 0,
            seen: Seen { total: 0, kept: 0 },
            of: PhantomData,
        }
    }

    /// What it holds, which is never more of either than a limit may be.
    pub fn held(&self) -> Held
        ensures held { result ≡ held_by self.now }
        ensures alive_fits { result.alive ≤ 65535 }
        ensures kept_fits { result.kept ≤ 65535 }
    {
        Held {
            alive: self.alive,
            kept: self.kept,
        }
    }
}

// Loads the total, whose limit L names.
#[inline(always)]
fn load_total<L: Limited>(
    table: &Table<(), SeatView, Limits, BudgetRule, Global>,
    seat: &mut Seat<(), SeatView>,
) -> u64
    requires table { seat.old.table_id ≡ table.now.shared.table_id }
    requires words { table.now.shared.table_id.words ≡ 2 }
    requires limit { table.now.shared.key.total ≡ L.limit }
    requires share { 0 < seat.old.me.0.share }
    ensures same { (seat.new.table_id ≡ seat.old.table_id) × (seat.new.id ≡ seat.old.id) }
    ensures looks { Looks L.limit on_total total_of seat.old.me result seat.new.me }
{
    table.shared.load::<LooksAtTotal<L>>(seat, TOTAL)
}

// Loads the number kept, whose limit L names.
#[inline(always)]
fn load_kept<L: Limited>(
    table: &Table<(), SeatView, Limits, BudgetRule, Global>,
    seat: &mut Seat<(), SeatView>,
) -> u64
    requires table { seat.old.table_id ≡ table.now.shared.table_id }
    requires words { table.now.shared.table_id.words ≡ 2 }
    requires limit { table.now.shared.key.connects ≡ L.limit }
    requires share { 0 < seat.old.me.0.share }
    ensures same { (seat.new.table_id ≡ seat.old.table_id) × (seat.new.id ≡ seat.old.id) }
    ensures looks { Looks L.limit on_kept kept_of seat.old.me result seat.new.me }
{
    table.shared.load::<LooksAtKept<L>>(seat, KEPT)
}
