//! A law of the earliest stamp.

ghost use Rattle.cache.specs.StampLaws.{EarliestGoesFirst, NoEarliestOfNone};

/// The earliest of some stamps is one of them, and none of them is before it; there is no earliest
/// only if there is no stamp.
pub fn earliest_goes_first()
    ensures earliest { EarliestGoesFirst }
    ensures none { NoEarliestOfNone }
{}
