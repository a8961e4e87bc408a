//! Laws of what logs say.

ghost use Rattle.conn_log.specs.Laws.{OpenAndClosedAreOpened, OldestIsIdleForLongest};
ghost use Rattle.conn_log.specs.Laws.{NoOldestIfNoneIsIdle, NewestFitIsIdleForShortest};
ghost use Rattle.conn_log.specs.Laws.{NoNewestIfNoneIsFit};
ghost use Rattle.conn_log.specs.Laws.{CutsFollowEachOther, PartsAddUp, ABaseTellsItsEntries};
ghost use Rattle.conn_log.specs.Laws.{BaseAndRestTellTheWhole};

/// Of a legal log the connections that are open and those that were closed are as many as were
/// opened.
pub fn counts_add_up()
    ensures opened { OpenAndClosedAreOpened }
{}

/// Of every log the oldest connection is idle, and each other idle one came back later, or in the
/// same moment with a greater number; there is no oldest only if nothing is idle.
pub fn oldest_came_back_first()
    ensures oldest { OldestIsIdleForLongest }
    ensures none { NoOldestIfNoneIsIdle }
{}

/// Of every log the newest connection that is fit for a want at a moment is fit, and each other fit
/// one came back earlier, or in the same moment with a lower number; there is no newest only if
/// nothing is fit.
pub fn newest_fit_came_back_last()
    ensures newest { NewestFitIsIdleForShortest }
    ensures none { NoNewestIfNoneIsFit }
{}

/// Of every log, wherever it is cut: the base that is led on through the rest is that of the whole,
/// and what both parts count is what the whole counts.
pub fn parts_add_up()
    ensures bases { CutsFollowEachOther }
    ensures counts { PartsAddUp }
{}

/// Of a legal log the base has what the entries say themselves, each thing of them; and what a base
/// and a rest tell of connections is what the whole log tells. Of another log they may differ: a
/// base forgets the numbers of closed connections, so one that is opened again counts as open.
pub fn bases_tell()
    ensures entries { ABaseTellsItsEntries }
    ensures whole { BaseAndRestTellTheWhole }
{}
