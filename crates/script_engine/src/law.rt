//! Laws of every script, whatever its bytes.

ghost use Rattle.script_engine.specs.Law.{EveryLogIsLegal, EveryScriptEndsAtRest};
ghost use Rattle.script_engine.specs.Law.{EveryWaitIsForRoom, EveryLeaseWasFree};
ghost use Rattle.script_engine.specs.Law.{EveryStartIsOfTheHead, EveryTicketStands};
ghost use Rattle.script_engine.specs.TranscriptLines.{EveryEventIsTold, EveryEventLineNamesAHost};
ghost use Rattle.script_engine.specs.TranscriptLines.{EveryLeaseIsTold, EveryLeasedLineWasFree};

use cache::laws::{
    acquires_start_or_wait, calls_leave_all_at_rest, calls_only_serve_others,
    nobody_waits_beside_room,
};

/// The logs behind a script's transcript are legal, and all its hosts are at rest: each log is
/// quiet by its mark, no sum passes its limit, and whoever waits does so for want of room. What is
/// leased in a log was opened before, came back whole and persistent, and is held by nobody at that
/// place; at each host transfers are served in the order in which they began to wait; whoever waits
/// has a ticket, and whoever has one waits or holds what it has yet to claim.
pub fn scripts_keep_the_law()
    ensures legal { EveryLogIsLegal }
    ensures rest { EveryScriptEndsAtRest }
    ensures room { EveryWaitIsForRoom }
    ensures leases { EveryLeaseWasFree }
    ensures order { EveryStartIsOfTheHead }
    ensures tickets { EveryTicketStands }
{
    calls_leave_all_at_rest();
    nobody_waits_beside_room();
    acquires_start_or_wait();
    calls_only_serve_others();
}

/// The lines of a script's transcript tell of the logs behind it: of each host those that tell of
/// an event and name it are the lines of all entries of its log, in order, and those of them that
/// begin with `leased` are the lines of all its leases; no line that tells of an event names none.
/// So each line that begins with `leased` tells of a connection that was opened before, came back
/// whole and persistent, and is held by nobody at that place.
pub fn transcripts_tell_of_their_logs()
    ensures events { EveryEventIsTold }
    ensures named { EveryEventLineNamesAHost }
    ensures leases { EveryLeaseIsTold }
    ensures free { EveryLeasedLineWasFree }
{
    scripts_keep_the_law();
}
