//! Which sites of a pool are in use.

ghost use Rattle.held_pool.specs.Calls.{is_unused_site};

use crate::token::Token;
use cache::Pool;
use conn_key::Places;

// The sites of a pool, of which those are unused where no connection is open and nobody waits.
#[derive(Drop)]
pub(crate) struct UsedSites<'a> {
    pub pool: &'a Pool<Token>,
}

impl Places for UsedSites<'_> {
    ghost unused = { λ sites site. is_unused_site sites.pool.now site };

    fn is_unused(&self, place: u32) -> bool {
        match self.pool.look(place) {
            Ok(counts) => counts.alive == 0 && counts.waiting == 0,
            Err(_) => false,
        }
    }
}
