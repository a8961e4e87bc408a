//! Small scripts over several hosts whose answers are known, against which the definitions of a
//! pool's calls were tried.

ghost use Rattle.cache.specs.Worked.{OldestOfAllMakesRoom, RoomForAQueuedHost};
ghost use Rattle.cache.specs.Worked.{FullCacheClosesTheOldest, AnotherLaneAtTheHostLimit};
ghost use Rattle.cache.specs.Worked.{BusyTransfer, PrunesAllHosts, FreedPermitsGoOn};
ghost use Rattle.cache.specs.Worked.{HostsTakeTurns, RaisedLimit, LoweredLimit};
ghost use Rattle.cache.specs.Worked.{RaisedWithoutRoom, RaisedWithSeveralTurns};

/// What calls of a pool answer in small scripts, by computation: each clause is named for what its
/// script shows.
pub fn worked_calls()
    ensures oldest_of_all_makes_room { OldestOfAllMakesRoom }
    ensures room_for_a_queued_host { RoomForAQueuedHost }
    ensures full_cache_closes_the_oldest { FullCacheClosesTheOldest }
    ensures another_lane_at_the_host_limit { AnotherLaneAtTheHostLimit }
    ensures busy_transfer { BusyTransfer }
    ensures prunes_all_hosts { PrunesAllHosts }
    ensures freed_permits_go_on { FreedPermitsGoOn }
    ensures hosts_take_turns { HostsTakeTurns }
    ensures raised_limit { RaisedLimit }
    ensures lowered_limit { LoweredLimit }
    ensures raised_without_room { RaisedWithoutRoom }
    ensures raised_with_several_turns { RaisedWithSeveralTurns }
{}
