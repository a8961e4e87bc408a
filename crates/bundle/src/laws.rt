//! Laws of what calls answer, for every log.

ghost use Rattle.bundle.specs.Passes.{PassesSpendWhatIsGone, NothingIsGoneAtFirst};
ghost use Rattle.bundle.specs.Passes.{EachSpendsSomeStarts};

/// The passes of a host have spent the starts whose leases are gone: none at first, and each call
/// keeps it so, by its clause `pass` (`KeepsPass`: `account`). So what one pass has spent is part
/// of the starts.
pub fn passes_have_spent_what_is_gone()
    ensures at_first { NothingIsGoneAtFirst }
    ensures each_call { PassesSpendWhatIsGone }
    ensures part_of_starts { EachSpendsSomeStarts }
{}
