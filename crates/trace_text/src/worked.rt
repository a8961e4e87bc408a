//! Lines of traces whose meaning is known, against which the definition was tried.

ghost use Rattle.trace_text.specs.Worked.{TellsStarts, TellsCloses, TellsOfTheQueue, TellsALimit};
ghost use Rattle.trace_text.specs.Worked.{SaysTheOrder, SaysWhatWasAsked, PassesOver};
ghost use Rattle.trace_text.specs.Worked.{RefusesForms, RefusesOthers};

/// What lines of a trace say, by computation: one of each form, those that are passed over, and
/// some that are refused.
pub fn worked_trace_lines()
    ensures starts { TellsStarts }
    ensures closes { TellsCloses }
    ensures queue { TellsOfTheQueue }
    ensures limit { TellsALimit }
    ensures order { SaysTheOrder }
    ensures asked { SaysWhatWasAsked }
    ensures passed { PassesOver }
    ensures forms { RefusesForms }
    ensures others { RefusesOthers }
{}
