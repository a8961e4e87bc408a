//! Laws of what is to be seen of a desk.

ghost use Rattle.shared_cache.specs.DeskLaws.{DeskShowsWhatWentBack};

/// Right after a lease went back, what a desk's pass was told last at that site is the return of
/// its connection, with the facts handed in, of a moment that is not before the one handed in; and
/// the stream that contracts see is the lease's.
pub fn desk_shows_what_went_back<S>()
    ensures { DeskShowsWhatWentBack S }
{}
