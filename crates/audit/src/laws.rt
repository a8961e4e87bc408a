//! Laws of the ends of uses.

ghost use Rattle.audit.specs.Laws.{AnEndIsOwed, OthersStay};

/// The end of a use is one by which a log owes a close, for its cause, and only then.
pub fn ends_are_owed()
    ensures owed { AnEndIsOwed }
    ensures others { OthersStay }
{}
