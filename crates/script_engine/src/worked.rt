//! Small scripts whose transcripts are known, against which the definition of a transcript was
//! tried.

ghost use Rattle.script_engine.specs.Worked.{TellsReuseThenDrop, TellsBusyAndNoSuchSite};
ghost use Rattle.script_engine.specs.Worked.{TellsNotPersistentAtTheLimit};
ghost use Rattle.script_engine.specs.Worked.{TellsGetWithAMissingWord, TellsNoRoomToKeep};
ghost use Rattle.script_engine.specs.Worked.{TellsIdleAsLongAsTheAge, TellsIdleLongerThanTheAge};
ghost use Rattle.script_engine.specs.Worked.{TellsAsOldAsTheLifetime, TellsOlderThanTheLifetime};
ghost use Rattle.script_engine.specs.Worked.{TellsAnotherLaneAtTheHostLimit, TellsForbiddenAndCut};
ghost use Rattle.script_engine.specs.Worked.{TellsMomentGoesBack, TellsOptionsInAnotherOrder};
ghost use Rattle.script_engine.specs.Worked.{TellsOneSiteInTwoSpellings, TellsWaitThenClaim};
ghost use Rattle.script_engine.specs.Worked.{TellsWithdrawAGrant, TellsMomentsClampedPerHost};
ghost use Rattle.script_engine.specs.Worked.{TellsTicketsAreNoLeases, TellsServedInOrder};
ghost use Rattle.script_engine.specs.Worked.{TellsAnOptionTwice, TellsUnknownCommand};
ghost use Rattle.script_engine.specs.Worked.{TellsSecondLimits, TellsBadSite, TellsOneSiteTooMany};
ghost use Rattle.script_engine.specs.Worked.{TellsASiteThatIsThere, TellsLongestLine};
ghost use Rattle.script_engine.specs.Worked.{TellsLineTooLongByOne, TellsEvents, TellsLeases};
ghost use Rattle.script_engine.specs.Worked.{TellsLimitsAlone, TellsNewestIsReusedThenUpkeep};
ghost use Rattle.script_engine.specs.Worked.{TellsPruneAndUpkeep, TellsPruneOverHosts};
ghost use Rattle.script_engine.specs.Worked.{TellsFullCacheClosesTheOldest};
ghost use Rattle.script_engine.specs.Worked.{TellsTotalRoomFromAnotherHost, TellsTotalRoomOnATie};
ghost use Rattle.script_engine.specs.Worked.{TellsHostWaitsForTheTotal, TellsHostsTakeTurns};
ghost use Rattle.script_engine.specs.Worked.{TellsLowerTheHostLimit, TellsRaiseTheHostLimit};
ghost use Rattle.script_engine.specs.Worked.{TellsRaiseAndWaitForTheTotal};
ghost use Rattle.script_engine.specs.Worked.{TellsRaiseTheLimitForTwo, TellsNoLimitOnAHost};
ghost use Rattle.script_engine.specs.Worked.{TellsLinesNamingTheSecondHost};
ghost use Rattle.script_engine.specs.Worked.{TellsLeasesAtTheSecondHost};

/// The transcripts of small scripts at one host, by computation: twelve of the worked ones, three
/// more of transfers that wait, the options of `get` in another order, one site in two spellings,
/// and one script of each fault that a line can have; and of one the lines of the log behind it.
pub fn worked_scripts()
    ensures reuse_then_drop { TellsReuseThenDrop }
    ensures busy_and_no_such_site { TellsBusyAndNoSuchSite }
    ensures not_persistent_at_the_limit { TellsNotPersistentAtTheLimit }
    ensures get_with_a_missing_word { TellsGetWithAMissingWord }
    ensures no_room_to_keep { TellsNoRoomToKeep }
    ensures idle_as_long_as_the_age { TellsIdleAsLongAsTheAge }
    ensures idle_longer_than_the_age { TellsIdleLongerThanTheAge }
    ensures as_old_as_the_lifetime { TellsAsOldAsTheLifetime }
    ensures older_than_the_lifetime { TellsOlderThanTheLifetime }
    ensures another_lane_at_the_host_limit { TellsAnotherLaneAtTheHostLimit }
    ensures forbidden_and_cut { TellsForbiddenAndCut }
    ensures moment_goes_back { TellsMomentGoesBack }
    ensures options_in_another_order { TellsOptionsInAnotherOrder }
    ensures one_site_in_two_spellings { TellsOneSiteInTwoSpellings }
    ensures wait_then_claim { TellsWaitThenClaim }
    ensures withdraw_a_grant { TellsWithdrawAGrant }
    ensures moments_clamped_per_host { TellsMomentsClampedPerHost }
    ensures tickets_are_no_leases { TellsTicketsAreNoLeases }
    ensures served_in_order { TellsServedInOrder }
    ensures an_option_twice { TellsAnOptionTwice }
    ensures unknown_command { TellsUnknownCommand }
    ensures second_limits { TellsSecondLimits }
    ensures bad_site { TellsBadSite }
    ensures one_site_too_many { TellsOneSiteTooMany }
    ensures a_site_that_is_there { TellsASiteThatIsThere }
    ensures longest_line { TellsLongestLine }
    ensures line_too_long_by_one { TellsLineTooLongByOne }
    ensures events { TellsEvents }
    ensures leases { TellsLeases }
{}

/// And of those worked ones that need a limit in total, a new limit of a host, a prune or an
/// upkeep, with a prune over two hosts, a limit raised for two that wait, and a limit that is taken
/// away; and of a script over two hosts the lines that name the second.
pub fn worked_scripts_over_hosts()
    ensures limits_alone { TellsLimitsAlone }
    ensures newest_is_reused_then_upkeep { TellsNewestIsReusedThenUpkeep }
    ensures prune_and_upkeep { TellsPruneAndUpkeep }
    ensures prune_over_hosts { TellsPruneOverHosts }
    ensures full_cache_closes_the_oldest { TellsFullCacheClosesTheOldest }
    ensures total_room_from_another_host { TellsTotalRoomFromAnotherHost }
    ensures total_room_on_a_tie { TellsTotalRoomOnATie }
    ensures host_waits_for_the_total { TellsHostWaitsForTheTotal }
    ensures hosts_take_turns { TellsHostsTakeTurns }
    ensures lower_the_host_limit { TellsLowerTheHostLimit }
    ensures raise_the_host_limit { TellsRaiseTheHostLimit }
    ensures raise_and_wait_for_the_total { TellsRaiseAndWaitForTheTotal }
    ensures raise_the_limit_for_two { TellsRaiseTheLimitForTwo }
    ensures no_limit_on_a_host { TellsNoLimitOnAHost }
    ensures lines_naming_the_second_host { TellsLinesNamingTheSecondHost }
    ensures leases_at_the_second_host { TellsLeasesAtTheSecondHost }
{}
