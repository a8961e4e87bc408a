//! Laws of what calls answer, for every log.

ghost use Rattle.host_state.specs.ClosingOrder.{ClosingsCloseTheOldestFirst};
ghost use Rattle.host_state.specs.Effects.{AcquireTidies, AcquireDoesAsReplied, GiveBackSpendsOne};
ghost use Rattle.host_state.specs.Effects.{AbandonSpendsOne, WithdrawSpendsOne, WithdrawLeaves};
ghost use Rattle.host_state.specs.Effects.{TurnOpensForHead, EvictingClosesOne, PruneCloses};
ghost use Rattle.host_state.specs.Effects.{LimitChanges, NoneTooOldIsLeft, NoneToPruneIsLeft};
ghost use Rattle.host_state.specs.Laws.{AcquireKeepsSoundAndQuiet, GiveBackKeepsSoundAndQuiet};
ghost use Rattle.host_state.specs.Laws.{AbandonKeepsSoundAndQuiet, WithdrawKeepsSoundAndQuiet};
ghost use Rattle.host_state.specs.Laws.{TurnKeepsSoundAndQuiet, EvictingKeepsSoundAndQuiet};
ghost use Rattle.host_state.specs.Laws.{PruneKeepsSoundAndQuiet, LimitKeepsSoundAndQuiet};
ghost use Rattle.host_state.specs.Laws.{AcquireWritesItsStart, AcquireWritesItsWait};
ghost use Rattle.host_state.specs.Laws.{GiveBackWritesItsReturn, AbandonWritesItsClosing};
ghost use Rattle.host_state.specs.Laws.{WithdrawWritesItsClosing, WithdrawWritesItsLeaving};
ghost use Rattle.host_state.specs.Laws.{LimitIsWritten};
ghost use Rattle.host_state.specs.Asks.{GiveBackAsksForWhatStays};
ghost use Rattle.host_state.specs.LimitsInForce.{AcquireKeepsTheLimit, GiveBackKeepsTheLimit};
ghost use Rattle.host_state.specs.LimitsInForce.{AbandonKeepsTheLimit, WithdrawKeepsTheLimit};
ghost use Rattle.host_state.specs.LimitsInForce.{TurnKeepsTheLimit, EvictingKeepsTheLimit};
ghost use Rattle.host_state.specs.LimitsInForce.{PruneKeepsTheLimit, LimitBecomesTheOneInForce};
ghost use Rattle.host_state.specs.LimitsInForce.{AllowedLimitsAreWithin, MomentsAreNotBefore};

/// A sound and quiet log stays so, and so legal, by each call that is not refused, whatever the
/// log.
pub fn calls_keep_logs_sound_and_quiet()
    ensures acquire { AcquireKeepsSoundAndQuiet }
    ensures give_back { GiveBackKeepsSoundAndQuiet }
    ensures abandon { AbandonKeepsSoundAndQuiet }
    ensures withdraw { WithdrawKeepsSoundAndQuiet }
    ensures turn { TurnKeepsSoundAndQuiet }
    ensures evict { EvictingKeepsSoundAndQuiet }
    ensures prune { PruneKeepsSoundAndQuiet }
    ensures limit { LimitKeepsSoundAndQuiet }
{}

/// What each call does to its host as other hosts count it, whatever the log: how many connections
/// are open and idle after it, and who waits.
pub fn calls_have_their_effects()
    ensures acquire_tidies { AcquireTidies }
    ensures acquire { AcquireDoesAsReplied }
    ensures give_back { GiveBackSpendsOne }
    ensures abandon { AbandonSpendsOne }
    ensures withdraw_granted { WithdrawSpendsOne }
    ensures withdraw_waiting { WithdrawLeaves }
    ensures turn { TurnOpensForHead }
    ensures evict { EvictingClosesOne }
    ensures prune { PruneCloses }
    ensures limit { LimitChanges }
    ensures none_too_old { NoneTooOldIsLeft }
    ensures none_to_prune { NoneToPruneIsLeft }
{}

/// What a call tells its pass that it wrote stands in the log that it leaves, whatever the log: the
/// start or the wait of an acquire is the newest entry, and that with which a lease or a ticket
/// ends is the first one that the call writes.
pub fn calls_write_what_they_tell()
    ensures start { AcquireWritesItsStart }
    ensures wait { AcquireWritesItsWait }
    ensures give_back { GiveBackWritesItsReturn }
    ensures abandon { AbandonWritesItsClosing }
    ensures withdraw_granted { WithdrawWritesItsClosing }
    ensures withdraw_waiting { WithdrawWritesItsLeaving }
    ensures limit { LimitIsWritten }
{}

/// The most connections that the host may have open stays by each call but a changed limit,
/// whatever the log; and what it is changed to is at most 65,535.
pub fn calls_keep_the_limit()
    ensures acquire { AcquireKeepsTheLimit }
    ensures give_back { GiveBackKeepsTheLimit }
    ensures abandon { AbandonKeepsTheLimit }
    ensures withdraw { WithdrawKeepsTheLimit }
    ensures turn { TurnKeepsTheLimit }
    ensures evict { EvictingKeepsTheLimit }
    ensures prune { PruneKeepsTheLimit }
    ensures limit { LimitBecomesTheOneInForce }
    ensures within { AllowedLimitsAreWithin }
{}

/// The moment at which a call acts is not before the one that it was handed, nor before the last
/// moment of the log, whatever the log.
pub fn moments_are_clamped()
    ensures { MomentsAreNotBefore }
{}

/// A give back of a lease whose want is the recorded one asks the budget to keep a connection
/// exactly where that is to be idle, whatever the log.
pub fn give_backs_ask_for_what_stays()
    ensures { GiveBackAsksForWhatStays }
{}

/// What a call closes as too old, what a prune closes, and what is closed for a lower limit comes
/// in order: of two idle connections of a legal log that a call closes so, the one that came back
/// earlier is closed first, and of two that came back in the same moment the one with the lower
/// number.
pub fn closings_close_the_oldest_first()
    ensures order { ClosingsCloseTheOldestFirst }
{}
