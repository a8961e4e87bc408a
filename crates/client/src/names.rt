//! Names of hosts, each of which is looked up once.

use conn_key::{PlaceTable, Places};
use std::alloc::{AllocError, Global};
use std::net::SocketAddr;

/// Number of names that are remembered. Past it, the name that was looked up first is forgotten.
const MOST_NAMES: u32 = 65_536;

/// Looks up the names of hosts.
pub trait Resolver {
    ghost use Rattle.std.specs.Prelude.{ℕ, List, IfOk};
    ghost use Rattle.std.specs.declared.net.socket_addr.SocketAddr.{SocketAddr};

    /// These addresses may be found for the host of that name.
    ghost found: { List ℕ → List SocketAddr → Type 0 };

    /// Waits for the addresses of the host of that name, in the order in which they are to be
    /// tried. There are none if the host is unknown. Their ports mean nothing.
    ///
    /// # Errors
    ///
    /// There is no memory for them.
    fn look_up(&self, alloc: Global, host: &str) -> Result<Vec<SocketAddr>, AllocError>
        ensures { IfOk result (λ addresses. found host.now addresses.items) };
}

/// The addresses that were found for a name; none if its host is unknown.
#[derive(Drop)]
pub struct Answer {
    pub name: String,
    pub found: Vec<SocketAddr>,
}

/// Look-ups in the background.
pub trait Names {
    ghost use Rattle.std.specs.Prelude.{ℕ, List, IfSome, string_bytes};
    ghost use Rattle.std.specs.declared.net.socket_addr.SocketAddr.{SocketAddr};

    /// These addresses may be the answer to that name.
    ghost found: { List ℕ → List SocketAddr → Type 0 };

    /// Begins to look up a name.
    ///
    /// # Errors
    ///
    /// There is no memory for it.
    fn ask(&self, name: &str) -> Result<(), AllocError>;

    /// Takes an answer, if one has arrived.
    fn answer(&self) -> Option<Answer>
        ensures { IfSome result (λ answer. found (string_bytes answer.name) answer.found.items) };

    /// True if an answer has arrived that was not taken.
    fn has_answer(&self) -> bool;

    /// Waits until an answer has arrived, for at most ten milliseconds.
    fn wait(&self);
}

/// The names that were looked up, and the addresses that were found.
#[derive(Drop)]
pub struct KnownNames {
    alloc: Global,
    names: PlaceTable,
    // By the place of a name, its addresses, once they are known.
    found: Vec<Option<Vec<SocketAddr>>>,
}

/// The places of names, each of which can be given to another name.
#[derive(Drop)]
struct AnyPlace;

impl Places for AnyPlace {
    ghost use Rattle.std.specs.Prelude.{true};

    ghost unused = { λ _ _. true };

    fn is_unused(&self, _place: u32) -> bool {
        true
    }
}

impl KnownNames {
    /// Makes a table without names.
    pub fn new(alloc: Global) -> KnownNames {
        KnownNames {
            alloc,
            names: PlaceTable::new(alloc, MOST_NAMES),
            found: Vec::new(alloc),
        }
    }

    /// Returns the addresses of the host of that name, with that port, if they are known; there are
    /// none if the host is unknown. Begins a look-up of a name that is new.
    ///
    /// # Errors
    ///
    /// There is no memory for it.
    pub fn find<N: Names>(
        &mut self,
        name: &str,
        port: u16,
        names: &N,
    ) -> Result<Option<Vec<SocketAddr>>, AllocError> {
        let Some(place) = self.names.find(name) else {
            names.ask(name)?;
            self.set(name, None)?;
            return Ok(None);
        };
        match self.found.get(place as usize) {
            Some(Some(found)) => Ok(Some(with_port(self.alloc, found.as_slice(), port)?)),
            _ => Ok(None),
        }
    }

    /// Records the answer of a look-up.
    ///
    /// # Errors
    ///
    /// There is no memory for it.
    pub fn learn(&mut self, answer: Answer) -> Result<(), AllocError> {
        let Answer { name, found } = answer;
        self.set(name.as_str(), Some(found))
    }

    // Records the addresses of a name.
    fn set(&mut self, name: &str, found: Option<Vec<SocketAddr>>) -> Result<(), AllocError> {
        let Ok(place) = self.names.place(name, &AnyPlace) else {
            return Err(AllocError);
        };
        match self.found.get_mut(place as usize) {
            Some(former) => *former = found,
            None => self.found.push(found)?,
        }
        Ok(())
    }
}

// Returns these addresses, each with that port.
fn with_port(
    alloc: Global,
    addresses: &[SocketAddr],
    port: u16,
) -> Result<Vec<SocketAddr>, AllocError> {
    let mut at_port = Vec::new(alloc);
    for address in addresses {
        let mut address = *address;
        address.set_port(port);
        at_port.push(address)?;
    }
    Ok(at_port)
}
