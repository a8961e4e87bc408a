//! What opens connections in memory.

ghost use Rattle.std.specs.Prelude.{◌≡◌, ℕ, [], ◌∷◌, ◌++◌, length, reverse};
ghost use Rattle.std.specs.Prelude.{None, Some, OnOk, OnErr};
ghost use Rattle.streams.specs.RisingCounts.{Rises};

use crate::calls::{Calls, Halt, NEVER};
use crate::memory_wire::MemoryWire;
use bundle::Lease;
use exchange::{Dial, Dialled, Place, Ready, Reason, Turned};
use futures::task::Source;
use std::alloc::{AllocError, Global};
use std::time::Duration;

/// What opens connections in memory: at each dial it gives the next of its wires. Without one left
/// it fails, and says that the host refused. It keeps which transfer was given up last, and, if it
/// has room for them, the places of a slab that it was told of. What it tells of places that are
/// ready is a script; without one it can't tell.
#[derive(Drop)]
pub struct MemoryDial {
    wires: Vec<MemoryWire>,
    // What it has still to tell, the first one last.
    script: Vec<Ready>,
    places: Vec<Place>,
    dials: Calls<Halt>,
    turns: Calls<Halt>,
    opened: u64,
    failures: u64,
    turn_failures: u64,
    given_up: Option<u64>,
    source: Source,
}

impl MemoryDial {
    /// A dial without wires.
    pub fn new(alloc: Global) -> MemoryDial
        ensures wires { result.wires.items ≡ [] }
        ensures counts { (result.opened ≡ 0) × (result.failures ≡ 0) }
        ensures turns { result.turn_failures ≡ 0 }
        ensures none { result.given_up ≡ None }
    {
        MemoryDial {
            wires: Vec::new(alloc),
            script: Vec::new(alloc),
            places: Vec::new(alloc),
            dials: Calls::with_halt(NEVER, Halt::Fault),
            turns: Calls::with_halt(NEVER, Halt::Fault),
            opened: 0,
            failures: 0,
            turn_failures: 0,
            given_up: None,
            source: Source::new(),
        }
    }

    /// Puts a wire behind those that it will give.
    ///
    /// # Errors
    ///
    /// There is no memory for it.
    pub fn add(&mut self, wire: MemoryWire) -> Result<(), AllocError>
        ensures ok { OnOk result
            (self.new.wires.items ≡ self.old.wires.items ++ (wire ∷ [])) }
        ensures err { OnErr result (self.new.wires.items ≡ self.old.wires.items) }
        ensures counts { self.new ≡ record self.old { wires = self.new.wires } }
    {
        match self.wires.push(wire) {
            Ok(()) => Ok(()),
            Err(_) => Err(AllocError),
        }
    }

    /// Writes the script of what it tells of places that are ready, one answer after another:
    /// each turn's end with `All` or `Nothing`.
    ///
    /// # Errors
    ///
    /// There is no memory for it. Nothing has changed then.
    pub fn tell(&mut self, script: &[Ready]) -> Result<(), AllocError>
        ensures ok { OnOk result (self.new.script.items ≡ reverse script.now) }
        ensures err { OnErr result (self.new ≡ self.old) }
        ensures rest { self.new ≡ record self.old { script = self.new.script } }
    {
        let alloc = *self.wires.allocator();
        let mut told = script.to_vec(alloc)?;
        told.reverse();
        self.script = told;
        Ok(())
    }

    /// Makes room for so many places that it is told of, and forgets those of before.
    ///
    /// # Errors
    ///
    /// There is no memory for it. Nothing has changed then.
    pub fn note_places(&mut self, room: usize) -> Result<(), AllocError>
        ensures ok { OnOk result (self.new.places.items ≡ []) }
        ensures err { OnErr result (self.new ≡ self.old) }
        ensures rest { self.new ≡ record self.old { places = self.new.places } }
    {
        let alloc = *self.wires.allocator();
        self.places = Vec::with_capacity(alloc, room)?;
        Ok(())
    }

    /// The places that it was told of, in their order, as far as it has room.
    pub fn places(&self) -> &[Place]
        ensures { result.now ≡ self.now.places.items }
    {
        self.places.as_slice()
    }

    /// At that dial, counted from one, this happens.
    pub fn halt_dial(&mut self, nth: u64, halt: Halt)
        ensures { self.new ≡ record self.old {
          dials = record { count = 0; halts_at = nth; halt = halt };
        } }
    {
        self.dials = Calls::with_halt(nth, halt);
    }

    /// At that turn, counted from one, it fails.
    pub fn fail_turn(&mut self, nth: u64)
        ensures { self.new ≡ record self.old {
          turns = record { count = 0; halts_at = nth; halt = Halt.Fault };
        } }
    {
        self.turns = Calls::with_halt(nth, Halt::Fault);
    }

    /// How many connections it has opened; the count stays at the greatest `u64`.
    pub fn opened(&self) -> u64
        ensures { result ≡ self.now.opened }
    {
        self.opened
    }

    /// How often a dial failed; the count stays at the greatest `u64`.
    pub fn failures(&self) -> u64
        ensures { result ≡ self.now.failures }
    {
        self.failures
    }

    /// How many wires it will still give.
    pub fn left(&self) -> usize
        ensures { result ≡ length self.now.wires.items }
    {
        self.wires.len()
    }

    /// How often a turn failed; the count stays at the greatest `u64`.
    pub fn turn_failures(&self) -> u64
        ensures { result ≡ self.now.turn_failures }
    {
        self.turn_failures
    }

    /// The transfer that it was told of last to give up.
    pub fn last_given_up(&self) -> Option<u64>
        ensures { result ≡ self.now.given_up }
    {
        self.given_up
    }

    // Counts a failure.
    fn fail(&mut self)
        ensures rises { Rises self.old.failures self.new.failures }
        ensures same { self.new ≡ record self.old { failures = self.new.failures } }
    {
        self.failures = self.failures.saturating_add(1);
    }
}

impl Dial<MemoryWire> for MemoryDial {
    ghost use Rattle.std.specs.Prelude.{◌≡◌, ◌⊎◌, ◌∷◌, ◌++◌, [], Some};
    ghost use Rattle.exchange.specs.Dialling.{GivesUpFor, KeepsDial};
    ghost use Rattle.exchange_memory.specs.MemoryDials.{memory_dial_shown};
    ghost use Rattle.exchange.specs.declared.ready.Ready.TheVariants.{All};

    ghost shown = { memory_dial_shown };

    ghost turned = { λ old new. new ≡ record old {
      turns = new.turns;
      turn_failures = new.turn_failures;
    } };

    fn dial(&mut self, _lease: &Lease<MemoryWire>) -> Dialled<MemoryWire> {
        match self.dials.next() {
            Some(Halt::NotYet) => return Dialled::NotYet,
            Some(_) => {
                self.fail();
                return Dialled::Fault;
            }
            None => {}
        }
        if self.wires.is_empty() {
            self.fail();
            return Dialled::Fault;
        }
        self.opened = self.opened.saturating_add(1);
        let mut wire = self.wires.remove(0);
        wire.begin();
        Dialled::Up(wire)
    }

    fn reason(&self) -> Option<Reason> {
        (self.failures > 0).then_some(Reason::Refused)
    }

    fn give_up(&mut self, lease: &Lease<MemoryWire>)
        ensures gives_up { GivesUpFor lease.now.start.want.transfer (memory_dial_shown self.old)
            (memory_dial_shown self.new) }
        ensures noted { self.new
            ≡ record self.old { given_up = Some lease.now.start.want.transfer } }
    {
        self.given_up = Some(lease.transfer());
    }

    fn adopt(&mut self, _wire: &mut MemoryWire) {}

    fn turn(&mut self, _most: Duration) -> Turned {
        if self.turns.next().is_some() {
            self.turn_failures = self.turn_failures.saturating_add(1);
            return Turned::Fault;
        }
        Turned::Done
    }

    fn set_place(&mut self, place: Place)
        ensures same { KeepsDial (memory_dial_shown self.old) (memory_dial_shown self.new) }
        ensures rest { self.new ≡ record self.old { places = self.new.places } }
    {
        if self.places.len() < self.places.capacity() {
            self.places.push_reserved(place);
        }
    }

    fn next_ready(&mut self) -> Ready
        ensures same { KeepsDial (memory_dial_shown self.old) (memory_dial_shown self.new) }
        ensures told { (self.old.script.items ≡ []) × (result ≡ All)
            ⊎ (self.old.script.items ≡ self.new.script.items ++ (result ∷ [])) }
        ensures rest { self.new ≡ record self.old { script = self.new.script } }
    {
        match self.script.pop() {
            Some(ready) => ready,
            None => Ready::All,
        }
    }

    fn source(&self) -> &Source {
        &self.source
    }
}
