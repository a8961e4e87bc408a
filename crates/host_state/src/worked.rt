//! Small logs whose answers are known, against which the definitions of the calls were tried.

ghost use Rattle.host_state.specs.Worked.{BusyAndNoSuchSiteCalls, ReuseThenDropCalls};
ghost use Rattle.host_state.specs.Worked.{NewestIsReusedCalls, NotPersistentAtTheLimitCalls};
ghost use Rattle.host_state.specs.Worked.{IdleAsLongAsTheAgeCalls, IdleLongerThanTheAgeCalls};
ghost use Rattle.host_state.specs.Worked.{AsOldAsTheLifetimeCalls, OlderThanTheLifetimeCalls};
ghost use Rattle.host_state.specs.Worked.{AnotherLaneAtTheHostLimitCalls, ForbiddenAndCutCalls};
ghost use Rattle.host_state.specs.Worked.{MomentGoesBackCalls, MomentsClampedPerHostCalls};
ghost use Rattle.host_state.specs.Worked.{WaitThenClaimCalls, WithdrawAGrantCalls, WhatDoesNotFit};
ghost use Rattle.host_state.specs.Worked.{NumbersRunOut, TwoTooOld, TwoIdleAtTheHostLimit};
ghost use Rattle.host_state.specs.Worked.{NoRoomInTheBudget, QueuedForTheTotal, TurnsOfAHost};
ghost use Rattle.host_state.specs.Worked.{FullCache, PruneByLifetime, LimitRaisedCalls};
ghost use Rattle.host_state.specs.Worked.{LimitLoweredCalls, LimitRaisedBeyondTheTotal};
ghost use Rattle.host_state.specs.Worked.{GreatestLimit};

/// What calls answer on small logs, by computation: each clause is named for the script of its log,
/// or for what its logs show.
pub fn worked_calls()
    ensures busy_and_no_such_site { BusyAndNoSuchSiteCalls }
    ensures reuse_then_drop { ReuseThenDropCalls }
    ensures newest_is_reused { NewestIsReusedCalls }
    ensures not_persistent_at_the_limit { NotPersistentAtTheLimitCalls }
    ensures idle_as_long_as_the_age { IdleAsLongAsTheAgeCalls }
    ensures idle_longer_than_the_age { IdleLongerThanTheAgeCalls }
    ensures as_old_as_the_lifetime { AsOldAsTheLifetimeCalls }
    ensures older_than_the_lifetime { OlderThanTheLifetimeCalls }
    ensures another_lane_at_the_host_limit { AnotherLaneAtTheHostLimitCalls }
    ensures forbidden_and_cut { ForbiddenAndCutCalls }
    ensures moment_goes_back { MomentGoesBackCalls }
    ensures moments_clamped_per_host { MomentsClampedPerHostCalls }
    ensures wait_then_claim { WaitThenClaimCalls }
    ensures withdraw_a_grant { WithdrawAGrantCalls }
    ensures what_does_not_fit { WhatDoesNotFit }
    ensures numbers_run_out { NumbersRunOut }
    ensures two_too_old { TwoTooOld }
    ensures two_idle_at_the_host_limit { TwoIdleAtTheHostLimit }
    ensures no_room_in_the_budget { NoRoomInTheBudget }
    ensures queued_for_the_total { QueuedForTheTotal }
    ensures turns_of_a_host { TurnsOfAHost }
    ensures full_cache { FullCache }
    ensures prune_by_lifetime { PruneByLifetime }
    ensures limit_raised { LimitRaisedCalls }
    ensures limit_lowered { LimitLoweredCalls }
    ensures limit_raised_beyond_the_total { LimitRaisedBeyondTheTotal }
    ensures greatest_limit { GreatestLimit }
{}
