//! What went back last: a value that contracts alone see, and no code holds.

ghost use Rattle.std.specs.Prelude.{◌≡◌, None};

use bundle::Lease;
use std::marker::Model;
use std::snapshot::Snapshot;

/// The lease that went back last, as it then was. It takes no memory, and contracts see its stream.
#[derive(Drop)]
pub(crate) struct LastReturned<S> {
    lease: Snapshot<Option<Lease<S>>>,
}

impl<S> Model for LastReturned<S> {
    ghost use Rattle.std.specs.Prelude.{Option};
    ghost use Rattle.shared_cache.specs.Desks.{wire_of};

    ghost Value = { Option S };

    ghost view = { λ last. wire_of last.lease.value };
}

impl<S> LastReturned<S> {
    // As long as no lease went back.
    pub(crate) fn none() -> Self
        ensures { result ≡ None }
    {
        let none: Option<Lease<S>> = None;
        let lease = Snapshot::of(&none);
        match none {
            None => LastReturned { lease },
            Some(_lease) => unreachable!(),
        }
    }

    // Once that lease goes back; the caller has it again at once.
    #[inline(always)]
    pub(crate) fn of(lease: Lease<S>) -> (Self, Lease<S>)
        ensures wire { result.0 ≡ lease.stream }
        ensures same { result.1 ≡ lease }
    {
        let some = Some(lease);
        let last = LastReturned {
            lease: Snapshot::of(&some),
        };
        match some {
            Some(lease) => (last, lease),
            None => unreachable!(),
        }
    }
}
