//! A place of a table, which holds one value after another.

ghost use Rattle.std.specs.Prelude.{◌≡◌, ◌+◌, None, Some, IfNone, IfSome};
ghost use Rattle.held_pool.specs.Slots.{filled, vacated, value_of};

use std::mem;

/// For how many values it was filled, and the value that it holds.
pub struct Place<T> {
    generation: u32,
    held: Option<T>,
}

impl<T> Place<T> {
    // A place that holds this value, which is the first.
    #[inline(always)]
    pub(crate) fn new(value: T) -> Place<T>
        ensures { result ≡ filled 1 value }
    {
        Place {
            generation: 1,
            held: Some(value),
        }
    }

    // The value, if it is of that generation.
    #[inline(always)]
    pub(crate) fn get(&self, generation: u32) -> Option<&T>
        ensures some { IfSome result (λ value. value_of self.now generation ≡ Some value.now) }
        ensures none { IfNone result (value_of self.now generation ≡ None) }
    {
        if self.generation != generation {
            return None;
        }
        self.held.as_ref()
    }

    // Takes the value out, if it is of that generation.
    #[inline(always)]
    pub(crate) fn take(&mut self, generation: u32) -> Option<T>
        ensures value { result ≡ value_of self.old generation }
        ensures some { IfSome result (λ _. self.new ≡ vacated generation) }
        ensures none { IfNone result (self.new ≡ self.old) }
    {
        if self.generation != generation {
            return None;
        }
        self.held.take()
    }

    // Puts a value of that generation in, where none is.
    #[inline(always)]
    pub(crate) fn put(&mut self, generation: u32, value: T)
        requires { self.old.held ≡ None }
        ensures { self.new ≡ filled generation value }
    {
        self.generation = generation;
        match mem::replace(&mut self.held, Some(value)) {
            None => {}
            Some(_) => unreachable!(),
        }
    }

    // The generation of the next value, if there is room for one and it can be counted.
    #[inline(always)]
    pub(crate) fn next_generation(&self) -> Option<u32>
        ensures { IfSome result (λ next. (self.now.held ≡ None)
            × (next ≡ self.now.generation + 1)) }
    {
        if self.held.is_some() {
            return None;
        }
        self.generation.checked_add(1)
    }

    // The value that is left.
    pub(crate) fn into_value(self) -> Option<T>
        ensures { result ≡ self.held }
    {
        let Place {
            generation: _,
            held,
        } = self;
        held
    }
}
