//! Values in slots.

ghost use Rattle.std.specs.Prelude.{◌≡◌, ◌<◌, ◌++◌, ◌∷◌, [], None, Some, IfNone, IfSome, OnOk};
ghost use Rattle.std.specs.Prelude.{vec_len, vec_capacity};
ghost use Rattle.held_pool.specs.declared.slot_place.Place.{Place};
ghost use Rattle.held_pool.specs.Slots.{ChangesPlace, IsLifted, IsNext, Puts, Takes, filled};
ghost use Rattle.held_pool.specs.Slots.{value_in};

use crate::slot::Slot;
use crate::slot_place::Place;
use std::alloc::{AllocError, Global};

/// Values in slots. A value is taken out by its slot alone, and a slot whose value was taken out
/// names none from then on: its place may be used again, under a slot of the next generation.
///
/// Values need not be `Drop`: the table has to be emptied, by [`SlotTable::pop`], and let go of.
pub struct SlotTable<T> {
    places: Vec<Place<T>>,
    // Places that hold no value, as hints: each is tested before it is used.
    vacant: Vec<u32>,
}

impl<T> SlotTable<T> {
    /// A table without values.
    pub fn new(alloc: Global) -> SlotTable<T>
        ensures { result.places.items ≡ [] }
    {
        SlotTable {
            places: Vec::new(alloc),
            vacant: Vec::new(alloc),
        }
    }

    /// Makes room for one value more, so that [`SlotTable::put`] takes no memory.
    ///
    /// # Errors
    ///
    /// There is no memory for it, or there are 4,294,967,295 places.
    pub fn reserve(&mut self) -> Result<(), AllocError>
        ensures same { self.new.places.items ≡ self.old.places.items }
        ensures room { OnOk result (vec_len self.new.places < vec_capacity self.new.places) }
        ensures few { OnOk result (vec_len self.new.places < 4294967295) }
    {
        let places = self.places.len();
        if places >= u32::MAX as usize {
            return Err(AllocError);
        }
        self.places.reserve(1)?;
        // So that all places can be vacant at once.
        self.vacant
            .reserve(places.saturating_sub(self.vacant.len()) + 1)
    }

    /// Puts a value into a new slot.
    #[inline(always)]
    pub fn put(&mut self, value: T) -> Slot
        requires room { vec_len self.old.places < vec_capacity self.old.places }
        requires few { vec_len self.old.places < 4294967295 }
        ensures { Puts self.old.places.items self.new.places.items result value }
    {
        match self.next_vacant() {
            Some(slot) => {
                self.fill(slot, value);
                slot
            }
            None => {
                let index = self.places.len() as u32;
                self.places.push_reserved(Place::new(value));
                Slot {
                    index,
                    generation: 1,
                }
            }
        }
    }

    // The next slot of a place that was noted as vacant, if it is.
    #[inline(always)]
    fn next_vacant(&mut self) -> Option<Slot>
        ensures next { IfSome result (IsNext self.new.places.items) }
        ensures same { self.new.places ≡ self.old.places }
    {
        let index = self.vacant.pop()?;
        let generation = self.next_generation(index)?;
        Some(Slot { index, generation })
    }

    // The generation of the next value there, if there is room for one.
    #[inline(always)]
    fn next_generation(&self, index: u32) -> Option<u32>
        ensures { IfSome result (λ generation. IsNext self.now.places.items
            (record { index = index; generation = generation })) }
    {
        self.places.get(index as usize)?.next_generation()
    }

    // Puts a value into the next slot of its place.
    #[inline(always)]
    fn fill(&mut self, slot: Slot, value: T)
        requires { IsNext self.old.places.items slot }
        ensures { Puts self.old.places.items self.new.places.items slot value }
    {
        self.places[slot.index as usize].put(slot.generation, value);
    }

    /// The slot's value.
    #[inline(always)]
    pub fn get(&self, slot: Slot) -> Option<&T>
        ensures some { IfSome result (λ value.
            value_in self.now.places.items slot ≡ Some value.now) }
        ensures none { IfNone result (value_in self.now.places.items slot ≡ None) }
    {
        self.places.get(slot.index as usize)?.get(slot.generation)
    }

    /// Takes the slot's value out.
    #[inline(always)]
    pub fn take(&mut self, slot: Slot) -> Option<T>
        ensures some { IfSome result
            (Takes self.old.places.items self.new.places.items slot) }
        ensures none { IfNone result (value_in self.old.places.items slot ≡ None) }
        ensures same { IfNone result (self.new.places.items ≡ self.old.places.items) }
    {
        let value = self.lift(slot)?;
        // There is room for it: `reserve` has made some for each place.
        let _ = self.vacant.push(slot.index);
        Some(value)
    }

    /// Takes the slot's value out for a moment: its place is kept for [`SlotTable::put_back`].
    #[inline(always)]
    pub fn lift(&mut self, slot: Slot) -> Option<T>
        ensures some { IfSome result
            (Takes self.old.places.items self.new.places.items slot) }
        ensures none { IfNone result (value_in self.old.places.items slot ≡ None) }
        ensures same { IfNone result (self.new.places.items ≡ self.old.places.items) }
    {
        let place = self.places.get_mut(slot.index as usize)?;
        place.take(slot.generation)
    }

    /// Puts a value back into the slot whose value was taken out for a moment, which may be another
    /// value.
    #[inline(always)]
    pub fn put_back(&mut self, slot: Slot, value: T)
        requires { IsLifted self.old.places.items slot }
        ensures { ChangesPlace self.old.places.items self.new.places.items slot.index
            (filled slot.generation value) }
    {
        self.places[slot.index as usize].put(slot.generation, value);
    }

    /// Takes the last place away, with its value if it holds one. `None` if there is none.
    pub fn pop(&mut self) -> Option<Option<T>>
        ensures some { IfSome result (λ held. (place : Place T) × (place.held ≡ held)
            × (self.old.places.items ≡ self.new.places.items ++ place ∷ [])) }
        ensures none { IfNone result (self.old.places.items ≡ []) }
        ensures same { IfNone result (self.new.places.items ≡ []) }
    {
        let place = self.places.pop()?;
        Some(place.into_value())
    }

    /// Lets go of a table. Asked of the caller: it was emptied.
    pub fn destroy_empty(self)
        requires { self.places.items ≡ [] }
    {
        let SlotTable { places, vacant: _ } = self;
        places.destroy_empty();
    }
}
