//! The rule of a word budget, and what each kind of step tells its seat.

use crate::limits::Limits;
use crate::words::view::SeatView;
use atomic_table::{Join, Play, Split, TableRule};
use std::marker::{Brand, PhantomData};

/// The rule of the two words.
pub struct BudgetRule;

impl TableRule<(), SeatView, Limits> for BudgetRule {
    ghost use Rattle.budget.specs.Words.{Rule, empty_seat, whole};

    ghost holds = { Rule };

    ghost first = { λ _. empty_seat whole };
}

/// Names the limit of the word that is loaded. Each call of a load picks it.
pub trait Limited {
    ghost use Rattle.std.specs.Prelude.{ℕ};

    ghost limit: { ℕ };
}

impl Limited for Brand {
    ghost limit = { 0 };
}

/// A load of the total.
pub struct LooksAtTotal<L> {
    limit: PhantomData<L>,
}

impl<L: Limited> Play<(), SeatView> for LooksAtTotal<L> {
    ghost use Rattle.budget.specs.Words.{Looks, on_total, total_of};

    ghost then = { λ _. Looks L.limit on_total total_of };
}

/// A load of the number kept.
pub struct LooksAtKept<L> {
    limit: PhantomData<L>,
}

impl<L: Limited> Play<(), SeatView> for LooksAtKept<L> {
    ghost use Rattle.budget.specs.Words.{Looks, on_kept, kept_of};

    ghost then = { λ _. Looks L.limit on_kept kept_of };
}

/// A load of the total after a join, whose value the seat does not note.
pub struct ComparesTotal;

impl Play<(), SeatView> for ComparesTotal {
    ghost use Rattle.budget.specs.Words.{Compares, on_total, total_of};

    ghost then = { λ _. Compares on_total total_of };
}

/// A load of the number kept after a join, whose value the seat does not note.
pub struct ComparesKept;

impl Play<(), SeatView> for ComparesKept {
    ghost use Rattle.budget.specs.Words.{Compares, on_kept, kept_of};

    ghost then = { λ _. Compares on_kept kept_of };
}

/// An exchange of the total to one more.
pub struct TakesOpen;

impl Play<(), SeatView> for TakesOpen {
    ghost use Rattle.budget.specs.declared.words.view.SeatView.{SeatView};
    ghost use Rattle.budget.specs.Words.{Takes, on_total};

    ghost then = { λ _. Takes on_total (λ (v : SeatView). v.total) };
}

/// An exchange of the number kept to one more.
pub struct TakesKept;

impl Play<(), SeatView> for TakesKept {
    ghost use Rattle.budget.specs.declared.words.view.SeatView.{SeatView};
    ghost use Rattle.budget.specs.Words.{Takes, on_kept};

    ghost then = { λ _. Takes on_kept (λ (v : SeatView). v.kept) };
}

/// A subtraction of one from the total.
pub struct GivesOpen;

impl Play<(), SeatView> for GivesOpen {
    ghost use Rattle.budget.specs.Words.{GivesBack, on_total};

    ghost then = { λ _ me _ after. GivesBack on_total me after };
}

/// A subtraction of one from the number kept.
pub struct GivesKept;

impl Play<(), SeatView> for GivesKept {
    ghost use Rattle.budget.specs.Words.{GivesBack, on_kept};

    ghost then = { λ _ me _ after. GivesBack on_kept me after };
}

/// A new seat gets one unit of share.
pub struct Parts;

impl Split<SeatView> for Parts {
    ghost use Rattle.budget.specs.Words.{after_split, empty_seat};

    ghost left = { after_split };

    ghost right = { λ _. empty_seat 1 };
}

/// Two seats become one.
pub struct Joins;

impl Join<SeatView> for Joins {
    ghost use Rattle.budget.specs.Words.{joined, empty_seat};

    ghost both = { joined };

    ghost spent = { empty_seat 0 };
}
