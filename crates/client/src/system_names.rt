//! Names that the system looks up.

use crate::look_ups::LookUps;
use crate::names::{Answer, Names, Resolver};
use socket::system_addresses;
use std::alloc::{AllocError, Global};
use std::cell::RefCell;
use std::collections::VecDeque;
use std::net::SocketAddr;
use std::sync::Wait;

/// Looks up names in the system. A call waits for the answer.
#[derive(Clone, Copy)]
pub struct SystemResolver<'a> {
    system: &'a HostRuntime,
}

impl<'a> SystemResolver<'a> {
    /// Makes a resolver of a system.
    pub fn new(system: &'a HostRuntime) -> SystemResolver<'a> {
        SystemResolver { system }
    }
}

impl Resolver for SystemResolver<'_> {
    ghost use Rattle.std.specs.Prelude.{⊤};

    ghost found = { λ name addresses. ⊤ };

    fn look_up(&self, alloc: Global, host: &str) -> Result<Vec<SocketAddr>, AllocError> {
        system_addresses(self.system, alloc, host, 0)
    }
}

/// Looks up names in the system, on threads if there are any, during transfers.
#[derive(Drop)]
pub struct SystemNames<'s, 'a: 's, H: Wait> {
    alloc: Global,
    resolver: SystemResolver<'a>,
    look_ups: &'s LookUps<'a, H, SystemResolver<'a>>,
    // A thread serves the look-ups.
    has_threads: bool,
    // Answers that were found without a thread.
    own: RefCell<VecDeque<Answer>>,
}

impl<'s, 'a: 's, H: Wait> SystemNames<'s, 'a, H> {
    /// Makes look-ups, which threads serve if `has_threads` says so.
    pub fn new(
        system: &'a HostRuntime,
        look_ups: &'s LookUps<'a, H, SystemResolver<'a>>,
        has_threads: bool,
    ) -> SystemNames<'s, 'a, H> {
        let alloc = system.alloc();
        SystemNames {
            alloc,
            resolver: SystemResolver::new(system),
            look_ups,
            has_threads,
            own: RefCell::new(VecDeque::new(alloc)),
        }
    }

    // Looks up a name without a thread.
    fn look_up(&self, name: &str) -> Result<(), AllocError> {
        let answer = Answer {
            name: String::from_str(self.alloc, name)?,
            found: self.resolver.look_up(self.alloc, name)?,
        };
        let Ok(mut own) = self.own.try_borrow_mut() else {
            return Err(AllocError);
        };
        own.push_back(answer)?;
        Ok(())
    }

    // Takes an answer that was found without a thread.
    fn own_answer(&self) -> Option<Answer> {
        match self.own.try_borrow_mut() {
            Ok(mut own) => own.pop_front(),
            Err(_) => None,
        }
    }

    // True if there is an answer that was found without a thread.
    fn has_own_answer(&self) -> bool {
        match self.own.try_borrow() {
            Ok(own) => !own.is_empty(),
            Err(_) => false,
        }
    }
}

impl<'s, 'a: 's, H: Wait> Names for SystemNames<'s, 'a, H> {
    ghost use Rattle.std.specs.Prelude.{⊤};

    ghost found = { λ name addresses. ⊤ };

    fn ask(&self, name: &str) -> Result<(), AllocError> {
        if self.has_threads {
            self.look_ups.ask(name)
        } else {
            self.look_up(name)
        }
    }

    fn answer(&self) -> Option<Answer> {
        if self.has_threads {
            self.look_ups.answer()
        } else {
            self.own_answer()
        }
    }

    fn has_answer(&self) -> bool {
        if self.has_threads {
            self.look_ups.has_answer()
        } else {
            self.has_own_answer()
        }
    }

    fn wait(&self) {
        if self.has_threads {
            self.look_ups.wait();
        }
    }
}
