//! Laws of what the calls of a pool answer, for all hosts.

ghost use Rattle.cache.specs.Laws.{NewIsAtRest, AbandonEndsAtRest, WithdrawEndsAtRest};
ghost use Rattle.cache.specs.Laws.{ServingEndsAtRest, AcquireEndsAtRest, GiveBackEndsAtRest};
ghost use Rattle.cache.specs.Laws.{PruneEndsAtRest, LimitEndsAtRest, NobodyWaitsBesideRoom};
ghost use Rattle.cache.specs.Laws.{AcquireStartsOrWaits, AcquireGivesItsStart};
ghost use Rattle.cache.specs.Laws.{AcquireHasItWait};
ghost use Rattle.cache.specs.Laws.{GiveBackLeavesNothing, AbandonLeavesNothing};
ghost use Rattle.cache.specs.Laws.{WithdrawLeavesNothing};
ghost use Rattle.cache.specs.Laws.{AcquireOnlyServesOthers, GiveBackOnlyServesOthers};
ghost use Rattle.cache.specs.Laws.{AbandonOnlyServesOthers, WithdrawOnlyServesOthers};
ghost use Rattle.cache.specs.Laws.{LimitOnlyServesOthers, PruneOnlyServes, ServingOnlyServes};
ghost use Rattle.cache.specs.Laws.{AcquireGrows, GiveBackGrows, AbandonGrows};
ghost use Rattle.cache.specs.Laws.{WithdrawGrows, PruneGrows, LimitGrows};
ghost use Rattle.cache.specs.OldestLaws.{OldestOfAllGoesFirst, NoOldestOfAllIfNoneIsIdle};

/// Hosts without connections are at rest, and lawful hosts are after each call that is not refused,
/// whatever the limits: each log is sound, both sums are within their limits, and a host is queued
/// only where no room can be made for it.
pub fn calls_leave_all_at_rest()
    ensures at_first { NewIsAtRest }
    ensures serving { ServingEndsAtRest }
    ensures acquire { AcquireEndsAtRest }
    ensures give_back { GiveBackEndsAtRest }
    ensures abandon { AbandonEndsAtRest }
    ensures withdraw { WithdrawEndsAtRest }
    ensures prune { PruneEndsAtRest }
    ensures limit { LimitEndsAtRest }
{}

/// At rest nobody waits beside room: where a transfer waits its host is at its limit, or the total
/// is and nothing is idle at any host.
pub fn nobody_waits_beside_room()
    ensures waits { NobodyWaitsBesideRoom }
{}

/// An acquire comes to a start or a wait, and never stays halfway; after it the transfer holds the
/// connection of its start, or waits, or was served.
pub fn acquires_start_or_wait()
    ensures reply { AcquireStartsOrWaits }
    ensures start { AcquireGivesItsStart }
    ensures wait { AcquireHasItWait }
{}

/// Whoever gives back, abandons or withdraws neither holds nor waits there after that.
pub fn spending_leaves_nothing()
    ensures give_back { GiveBackLeavesNothing }
    ensures abandon { AbandonLeavesNothing }
    ensures withdraw { WithdrawLeavesNothing }
{}

/// Each call only adds to the logs, and leaves as many hosts.
pub fn calls_only_add_to_logs()
    ensures acquire { AcquireGrows }
    ensures give_back { GiveBackGrows }
    ensures abandon { AbandonGrows }
    ensures withdraw { WithdrawGrows }
    ensures prune { PruneGrows }
    ensures limit { LimitGrows }
{}

/// Where nothing is called a host is only served: some of the first that wait there start, and
/// nobody else's hold or wait changes.
pub fn calls_only_serve_others()
    ensures serving { ServingOnlyServes }
    ensures acquire { AcquireOnlyServesOthers }
    ensures give_back { GiveBackOnlyServesOthers }
    ensures abandon { AbandonOnlyServesOthers }
    ensures withdraw { WithdrawOnlyServesOthers }
    ensures limit { LimitOnlyServesOthers }
    ensures prune { PruneOnlyServes }
{}

/// Whatever the logs, the oldest connection of all, which is closed for room in total or as the
/// cache is full, is idle, and each other idle one at any host is idle for less long, or as long
/// at a host of a greater index, or there with a greater number; there is none only if nothing is
/// idle at any host.
pub fn oldest_of_all_goes_first()
    ensures oldest { OldestOfAllGoesFirst }
    ensures none { NoOldestOfAllIfNoneIsIdle }
{}
