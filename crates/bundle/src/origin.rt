//! The host that a ticket was made at: a note that contracts alone see, and no code holds.
ghost use Rattle.std.specs.Prelude.{◌≡◌};
ghost use Rattle.std.specs.Borrow.{ftrue};
ghost use Rattle.bundle.specs.Seats.{Tables, tables_coded};

use crate::seats::Seats;
use std::marker::{Model, PhantomData};

/// The tables of the host that a ticket was made at. It takes no memory, and its methods do nothing
/// at run time.
#[derive(Drop)]
pub(crate) struct Origin {
    marker: PhantomData<u8>,
    pub ghost tables: { Tables } by { tables_coded },
}

impl Model for Origin {
    ghost also_owns = { λ _. ftrue };
}

// It owns nothing, so any thread may have it.
unsafe impl Send for Origin {}

// And so may several at once.
unsafe impl Sync for Origin {}

impl Origin {
    /// The origin of a ticket made at the host with these seats.
    pub fn of(_seats: &Seats) -> Origin
        ensures { result.tables ≡ _seats.now.tables }
    {
        Origin {
            marker: PhantomData,
        }
    }
}
