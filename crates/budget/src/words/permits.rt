ghost use Rattle.std.specs.Prelude.{◌≡◌};

use crate::permits::{Held, Permits, Try};
use crate::words::budget::{BudgetSeat, WordBudget};

/// A seat together with its budget: a host's part of the budget that threads share. Full is
/// answered only where the load that the call made read the limit, Contended only where the
/// exchange that followed found another value.
#[derive(Drop)]
pub struct SeatPermits<'a, K> {
    budget: &'a WordBudget<K>,
    seat: &'a mut BudgetSeat<K>,
}

impl<'a, K> SeatPermits<'a, K> {
    /// The seat, at its budget.
    pub fn new(budget: &'a WordBudget<K>, seat: &'a mut BudgetSeat<K>) -> SeatPermits<'a, K>
        ensures same_reference { result.seat.ghost_name ≡ seat.entry.ghost_name }
        ensures budget { result.budget.now ≡ budget.now }
        ensures seat { result.seat.now ≡ seat.old }
    {
        SeatPermits { budget, seat }
    }
}

impl<K> Permits<K> for SeatPermits<'_, K> {
    ghost use Rattle.std.specs.Prelude.{◌≡◌, refl};
    ghost use Rattle.std.proofs.Common.{◌∙◌};
    ghost use Rattle.budget.specs.Words.{Stays, Opening, Keeping, TriesOpen, TriesKept, held_by};
    ghost use Rattle.budget.specs.Words.{LoadsMore};
    ghost use Rattle.budget.specs.WordsLaws as laws;

    ghost stands = { λ part. part.seat.now.table ≡ part.budget.now.table };

    ghost held = { λ part. held_by part.seat.now };

    ghost stays = { λ x y. (y.seat.ghost_name ≡ x.seat.ghost_name)
        × Stays x.budget.now x.seat.now y.budget.now y.seat.now };

    ghost opening = { λ x y. Opening y.budget.now x.seat.now y.seat.now };

    ghost keeping = { λ x y. Keeping y.budget.now x.seat.now y.seat.now };

    ghost asks_open = { λ x y answer.
        TriesOpen y.budget.now.limits.total x.seat.now answer y.seat.now };

    ghost asks_kept = { λ x y answer.
        TriesKept y.budget.now.limits.connects x.seat.now answer y.seat.now };

    ghost asked = { λ x y. LoadsMore x.seat.now.view y.seat.now.view };

    ghost same_total = { λ x y. y.seat.now.view.total ≡ x.seat.now.view.total };

    ghost same_kept = { λ x y. y.seat.now.view.kept ≡ x.seat.now.view.kept };

    #[inline(always)]
    fn reserve_open(&mut self, key: &K) -> Try {
        self.budget.try_open(self.seat, key)
    }

    #[inline(always)]
    fn reserve_kept(&mut self, key: &K) -> Try {
        self.budget.try_keep(self.seat, key)
    }

    #[inline(always)]
    fn release_open(&mut self) {
        self.budget.free_open(self.seat)
    }

    #[inline(always)]
    fn release_kept(&mut self) {
        self.budget.free_keep(self.seat)
    }

    fn held(&self) -> Held {
        self.seat.held()
    }

    ghost stays_from_start = { λ x. (refl, laws.stays_from_start x.budget.now x.seat.now) };

    ghost stays_on = { λ x y z p q. (q.0 ∙ p.0, laws.stays_on p.1 q.1) };

    ghost asked_from_start = { λ x. laws.asked_from_start x.seat.now };

    ghost asked_on = { λ x y z. laws.asked_on x.seat.now y.seat.now z.seat.now };

    ghost not_asked_to_open = { λ x y s. tt };

    ghost not_asked_to_keep = { λ x y s. tt };

    ghost opening_since = { λ x y z answer s.
        laws.opening_since _ _ z.budget.now x.seat.now y.seat.now z.seat.now answer s.1 };

    ghost keeping_since = { λ x y z answer s.
        laws.keeping_since _ _ z.budget.now x.seat.now y.seat.now z.seat.now answer s.1 };

    ghost opening_still = { λ x y z answer told s.
        laws.opening_still _ _ x.seat.now y.seat.now z.seat.now answer told s.1 };

    ghost keeping_still = { λ x y z answer told s.
        laws.keeping_still _ _ x.seat.now y.seat.now z.seat.now answer told s.1 };

    ghost contended_to_open = { λ x y z told s.
        laws.contended_to_open _ _ x.seat.now y.seat.now z.seat.now told s.1 };

    ghost contended_to_keep = { λ x y z told s.
        laws.contended_to_keep _ _ x.seat.now y.seat.now z.seat.now told s.1 };

    ghost same_total_on = { λ x y z p q. q ∙ p };

    ghost same_kept_on = { λ x y z p q. q ∙ p };

    ghost same_total_from_start = { λ x. refl };

    ghost same_kept_from_start = { λ x. refl };
}
