//! What happened in a part of a host's log.

ghost use Rattle.std.specs.Prelude.{◌≡◌, reverse};
ghost use Rattle.conn_log.specs.Counts.{counts};

use conn_log::{Counts, Entry};

/// What happened in these entries, oldest first, as a cut of a log hands them out: how many
/// connections were opened, leased again and closed, and how many transfers began to wait. It
/// takes no memory.
pub fn count_part(part: &[Entry]) -> Counts
    ensures { result ≡ counts (reverse part.now) }
{
    Counts::of(part)
}
