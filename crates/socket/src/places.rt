//! Whose sockets are whose: which transfer of a slab each descriptor belongs to.

use crate::alarm::ALARM;
use exchange::{Place, Ready};
use mio::Token;
use std::alloc::Global;
use std::os::fd::AsRawFd;

/// The token of a socket: its descriptor.
pub(crate) fn token_of<S: AsRawFd>(socket: &S) -> Token {
    Token(usize::try_from(socket.as_raw_fd()).unwrap_or(usize::MAX))
}

/// A place that no slab has: an alarm brings no transfer on.
const NOWHERE: Place = Place {
    index: u32::MAX,
    joined: 0,
};

/// The place that each socket belongs to, by token.
#[derive(Drop)]
pub(crate) struct Places {
    rows: Vec<Option<Place>>,
    /// The place that sockets belong to from now on.
    current: Option<Place>,
}

impl Places {
    /// No place is known.
    pub(crate) fn new(alloc: Global) -> Places {
        Places {
            rows: Vec::new(alloc),
            current: None,
        }
    }

    /// Sockets belong to that place from now on.
    pub(crate) fn set_current(&mut self, place: Place) {
        self.current = Some(place);
    }

    /// The socket with that token belongs to the current place. If memory is short, it belongs to
    /// none: a socket past the rows may be anybody's.
    pub(crate) fn note(&mut self, token: Token) {
        let row = token.0;
        if self.rows.len() <= row {
            let _ = self.rows.resize(row.saturating_add(1), None);
        }
        if let Some(place) = self.rows.get_mut(row) {
            *place = self.current;
        }
    }

    /// Who may go on, now that the socket with that token is ready.
    pub(crate) fn ready(&self, token: Token) -> Ready {
        match self.rows.get(token.0) {
            Some(Some(place)) => Ready::At(*place),
            _ if token == ALARM => Ready::At(NOWHERE),
            _ => Ready::All,
        }
    }
}
