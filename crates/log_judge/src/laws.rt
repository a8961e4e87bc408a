//! Laws of the rules.

ghost use Rattle.log_judge.specs.Laws.{ABrokenRuleMakesNoLegalLog, ALegalLogBreaksNoRule};
ghost use Rattle.log_judge.specs.Laws.{WhatIsSettledIsQuiet};

/// An entry that breaks a rule makes no legal log, and of a legal log no entry broke one.
pub fn rules_are_those_of_legal_logs()
    ensures broken { ABrokenRuleMakesNoLegalLog }
    ensures legal { ALegalLogBreaksNoRule }
{}

/// If nothing is unsettled at rest, the limits are kept and each host's log is quiet.
pub fn what_is_settled_is_quiet()
    ensures { WhatIsSettledIsQuiet }
{}
