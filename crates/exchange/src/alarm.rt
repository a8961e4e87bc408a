//! What ends a turn of a dial from another thread.

/// What ends a turn of a dial's event loop from another thread, so that the transfers there may ask
/// for what was given up here.
///
/// Whoever drives the dial says that it falls asleep, looks whether anything was given up since,
/// takes its turn, and says that it woke up. Whoever gives something up says so first, and rings
/// then. If each step is sequentially consistent, one of both sees the other.
pub trait Alarm {
    /// The next turn may be ended.
    fn fall_asleep(&self);

    /// The turn has ended. Whether an alarm ended it.
    fn wake_up(&self) -> bool;

    /// Ends the turn, if whoever drives the dial has said since the last one that it falls asleep.
    fn ring(&self);
}

/// A dial whose turns nobody ends.
impl Alarm for () {
    fn fall_asleep(&self) {}

    fn wake_up(&self) -> bool {
        false
    }

    fn ring(&self) {}
}
