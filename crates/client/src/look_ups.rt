//! Look-ups of names on other threads, during a crawl.

ghost use Rattle.std.specs.Prelude.{◌≡◌, ◌+◌, ◌≤◌, ◌<◌, ◌++◌, ◌∷◌, [], false, OnOk};
ghost use Rattle.std.specs.Prelude.{string_bytes};
ghost use Rattle.std.specs.VecDeque.{deque_len, deque_capacity};
ghost use Rattle.client.specs.LookedUp.{IsAnswer};

use crate::names::{Answer, Names, Resolver};
use std::alloc::{AllocError, Global};
use std::collections::VecDeque;
use std::marker::PhantomData;
use std::sync::atomic::{AtomicBool, Ordering};
use std::sync::{Condvar, Mutex, Wait};
use std::time::Duration;

/// The longest wait for an answer, in milliseconds.
const MOST_WAIT: u64 = 10;

/// A queue of look-ups, which any number of threads carry out: each calls [`LookUps::serve`].
///
/// An answer has a name that was added, and the addresses that the resolver returned for it, or
/// none. A look-up that runs out of memory has the answer of an unknown host.
#[derive(Drop)]
pub struct LookUps<'a, H: Wait, R: Resolver> {
    waits: &'a H,
    alloc: Global,
    state: Mutex<State<R>>,
    // True if an answer is stored. It is set under the lock, and read without it.
    has_answer: AtomicBool,
    // Notified when a name is added, and when the queue is closed.
    added: Condvar,
    // Notified when an answer is stored.
    answered: Condvar,
}

/// The names and the answers, under their lock.
#[derive(Drop)]
struct State<R: Resolver> {
    // Names that no thread has taken yet.
    names: VecDeque<String>,
    answers: VecDeque<Found<R>>,
    // Number of names whose answers are not stored yet. There is room for each of these.
    pending: usize,
    is_closed: bool,
    ghost room: { deque_len answers + pending ≤ deque_capacity answers },
}

/// The answer to a name, by a resolver of type `R`.
#[derive(Drop)]
struct Found<R: Resolver> {
    answer: Answer,
    of: PhantomData<R>,
    ghost found: { ∥ IsAnswer R.found (string_bytes answer.name) answer.found.items ∥₁ },
}

impl<R: Resolver> State<R> {
    // A queue without names.
    fn new(alloc: Global) -> State<R>
        ensures none { result.names.items ≡ [] }
        ensures pending { result.pending ≡ 0 }
        ensures open { result.is_closed ≡ false }
    {
        State {
            names: VecDeque::new(alloc),
            answers: VecDeque::new(alloc),
            pending: 0,
            is_closed: false,
        }
    }

    // Adds a name, and reserves room for its answer, which no thread can then fail to store.
    //
    // Errors: there is no memory for them.
    fn ask(&mut self, name: String) -> Result<(), AllocError>
        ensures adds { OnOk result (self.new.names.items ≡ self.old.names.items ++ name ∷ []) }
        ensures pending { OnOk result (self.new.pending ≡ self.old.pending + 1) }
        ensures closed { self.new.is_closed ≡ self.old.is_closed }
    {
        self.names.reserve(1)?;
        self.answers.reserve(self.pending + 1)?;
        self.pending += 1;
        self.names.push_back_reserved(name);
        Ok(())
    }

    // Stores an answer in the room that was reserved for it.
    fn store(&mut self, found: Found<R>)
        ensures stores { 0 < self.old.pending
            → self.new.answers.items ≡ self.old.answers.items ++ found ∷ [] }
        ensures pending { 0 < self.old.pending → self.new.pending + 1 ≡ self.old.pending }
        ensures closed { self.new.is_closed ≡ self.old.is_closed }
    {
        if self.pending > 0 {
            self.pending -= 1;
            self.answers.push_back_reserved(found);
        }
    }
}

// Looks up a name. There are no addresses if there is no memory for them.
fn look_up<R: Resolver>(resolver: &R, alloc: Global, name: String) -> Found<R>
    ensures { result.answer.name ≡ name }
{
    let found = match resolver.look_up(alloc, name.as_str()) {
        Ok(found) => found,
        Err(AllocError) => Vec::new(alloc),
    };
    Found {
        answer: Answer { name, found },
        of: PhantomData,
    }
}

impl<'a, H: Wait, R: Resolver> LookUps<'a, H, R> {
    /// Makes a queue without names, whose calls wait by `waits`.
    pub fn new(waits: &'a H, alloc: Global) -> LookUps<'a, H, R> {
        LookUps {
            waits,
            alloc,
            state: Mutex::new(State::new(alloc)),
            has_answer: AtomicBool::new(false),
            added: Condvar::new(),
            answered: Condvar::new(),
        }
    }

    /// Looks up one name after another, until the queue is closed. Each call has its own thread.
    pub fn serve(&self, resolver: &R) {
        for _ in self.waits.forever() {
            let Some(name) = self.next_name() else {
                return;
            };
            self.store(look_up(resolver, self.alloc, name));
        }
    }

    /// Closes the queue: each call of [`LookUps::serve`] returns after the look-up that it carries
    /// out. Names that no thread has taken are not looked up.
    pub fn close(&self) {
        self.state.lock(self.waits).is_closed = true;
        self.added.notify_all();
    }

    // Waits for a name, and takes it. Returns none once the queue is closed.
    fn next_name(&self) -> Option<String> {
        let state = self.state.lock(self.waits);
        let mut state = self.added.wait_while(self.waits, state, |state| {
            state.names.is_empty() && !state.is_closed
        });
        if state.is_closed {
            return None;
        }
        state.names.pop_front()
    }

    // Stores an answer, and wakes up the caller that waits for it.
    fn store(&self, found: Found<R>) {
        {
            let mut state = self.state.lock(self.waits);
            state.store(found);
            self.has_answer.store(true, Ordering::SeqCst);
        }
        self.answered.notify_one();
    }
}

impl<H: Wait, R: Resolver> Names for LookUps<'_, H, R> {
    ghost use Rattle.client.specs.LookedUp.{IsAnswer};

    ghost found = { λ name addresses. ∥ IsAnswer R.found name addresses ∥₁ };

    fn ask(&self, name: &str) -> Result<(), AllocError> {
        let name = name.to_string(self.alloc)?;
        self.state.lock(self.waits).ask(name)?;
        self.added.notify_one();
        Ok(())
    }

    fn answer(&self) -> Option<Answer> {
        if !self.has_answer() {
            return None;
        }
        let mut state = self.state.lock(self.waits);
        let found = state.answers.pop_front();
        self.has_answer
            .store(!state.answers.is_empty(), Ordering::SeqCst);
        Some(found?.answer)
    }

    fn has_answer(&self) -> bool {
        self.has_answer.load(Ordering::SeqCst)
    }

    fn wait(&self) {
        let seen = self.answered.notifications();
        if !self.has_answer() {
            self.answered
                .sleep(self.waits, seen, Duration::from_millis(MOST_WAIT));
        }
    }
}
