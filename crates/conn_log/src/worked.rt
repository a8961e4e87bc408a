//! Small logs whose answers are known, against which the definitions were tried.

ghost use Rattle.conn_log.specs.Worked.{BusyAndNoSuchSite, ReuseThenDrop, NewestIsReused};
ghost use Rattle.conn_log.specs.Worked.{NotPersistentAtTheLimit, IdleAsLongAsTheAge};
ghost use Rattle.conn_log.specs.Worked.{IdleLongerThanTheAge, AsOldAsTheLifetime};
ghost use Rattle.conn_log.specs.Worked.{OlderThanTheLifetime, AnotherLaneAtTheHostLimit};
ghost use Rattle.conn_log.specs.Worked.{ForbiddenAndCut, MomentGoesBack, WaitThenClaim};
ghost use Rattle.conn_log.specs.Worked.{WithdrawAGrant, MomentsClampedPerHost, LimitRaised};
ghost use Rattle.conn_log.specs.Worked.{LimitLowered, CutLogs};

/// What small logs say, by computation: each clause but the last is named for the script of its
/// log.
pub fn worked_logs()
    ensures busy_and_no_such_site { BusyAndNoSuchSite }
    ensures reuse_then_drop { ReuseThenDrop }
    ensures newest_is_reused { NewestIsReused }
    ensures not_persistent_at_the_limit { NotPersistentAtTheLimit }
    ensures idle_as_long_as_the_age { IdleAsLongAsTheAge }
    ensures idle_longer_than_the_age { IdleLongerThanTheAge }
    ensures as_old_as_the_lifetime { AsOldAsTheLifetime }
    ensures older_than_the_lifetime { OlderThanTheLifetime }
    ensures another_lane_at_the_host_limit { AnotherLaneAtTheHostLimit }
    ensures forbidden_and_cut { ForbiddenAndCut }
    ensures moment_goes_back { MomentGoesBack }
    ensures wait_then_claim { WaitThenClaim }
    ensures withdraw_a_grant { WithdrawAGrant }
    ensures moments_clamped_per_host { MomentsClampedPerHost }
    ensures limit_raised { LimitRaised }
    ensures limit_lowered { LimitLowered }
    ensures cut_logs { CutLogs }
{}
