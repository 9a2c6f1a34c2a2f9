//! Slots, in each of which something is, or nothing.
ghost use Rattle.std.specs.Prelude.{◌≡◌, ◌+◌, ◌++◌, ◌∷◌, ◌<◌, ◌≤◌, ℕ, [], true, false, None, Some, IfOk, OnOk, get_or, length, option_copied, slice_set};
ghost use Rattle.shelf.specs.Looking.{is_held};
ghost use Rattle.shelf.specs.Shelved.{slot_at};

use crate::shelf::Slot;
use std::alloc::{AllocError, Global};
use std::marker::Model;
use std::mem;

/// What there is one of that can stand where nothing is.
pub trait Blank {
    fn blank() -> Self;
}

/// Slots, in each of which something is with its key, or nothing.
#[derive(Drop)]
pub struct Slots<K, V> {
    cells: Vec<Slot<K, V>>,
    // In which of them something is.
    full: Vec<bool>,
}

impl<K, V> Model for Slots<K, V> {
    ghost use Rattle.std.specs.Prelude.{◌≡◌, ◌-◌, length, min};
    ghost use Rattle.shelf.specs.Seated.{Seats, seats_code, seen};

    ghost Value = { Seats K V };

    ghost coded = { seats_code K.code V.code };

    ghost view = { λ s. record { items = seen s.full.items s.cells.items; room = min (s.cells.cap - s.cells.len) (s.full.cap - s.full.len) } };

    ghost invariant = { λ s. length s.full.items ≡ length s.cells.items };
}

// Whether the cell is full.
fn is_full(full: &Vec<bool>, cell: usize) -> bool
    ensures { result ≡ get_or full.now.items cell false }
{
    let Some(is) = full.get(cell) else {
        return false;
    };
    *is
}

impl<K: Copy, V: Blank + Drop> Slots<K, V> {
    /// None, and the memory for so many.
    pub(crate) fn new(alloc: Global, slots: usize) -> Result<Slots<K, V>, AllocError>
        ensures { IfOk result (λ made. made.items ≡ []) }
    {
        let cells = Vec::with_capacity(alloc, slots)?;
        let full = Vec::with_capacity(alloc, slots)?;
        Ok(Slots { cells, full })
    }

    /// Takes the memory for so many more.
    pub(crate) fn reserve(&mut self, more: usize) -> Result<(), AllocError>
        ensures same { self.new.items ≡ self.old.items }
        ensures room { OnOk result (more ≤ self.new.room) }
    {
        self.cells.reserve(more)?;
        self.full.reserve(more)
    }

    /// How many there are.
    pub fn len(&self) -> usize
        ensures { result ≡ length self.now.items }
    {
        self.full.len()
    }

    /// Whether something is in the slot.
    pub(crate) fn holds(&self, slot: usize) -> bool
        ensures { result ≡ is_held (slot_at self.now.items slot) }
    {
        is_full(&self.full, slot)
    }

    /// What is in the slot, if anything is.
    pub fn get(&self, slot: usize) -> Option<&Slot<K, V>>
        ensures { option_copied result ≡ slot_at self.now.items slot }
    {
        if is_full(&self.full, slot) {
            return Some(&self.cells[slot]);
        }
        None
    }

    /// What is in the slot, in which something is.
    pub(crate) fn at(&self, slot: usize) -> &Slot<K, V>
        requires { is_held (slot_at self.now.items slot) ≡ true }
        ensures { Some result.now ≡ slot_at self.now.items slot }
    {
        &self.cells[slot]
    }

    /// One more, in which nothing is, for which there is memory.
    pub(crate) fn widen(&mut self, key: K)
        requires { 1 ≤ self.old.room }
        ensures items { self.new.items ≡ self.old.items ++ None ∷ [] }
        ensures room { self.old.room ≤ self.new.room + 1 }
    {
        let Ok(()) = self.full.push(false) else {
            unreachable!()
        };
        let kept = V::blank();
        let Ok(()) = self.cells.push(Slot { key, kept }) else {
            unreachable!()
        };
    }

    /// Puts it into the slot.
    pub(crate) fn fill(&mut self, slot: usize, key: K, kept: V)
        requires { slot < length self.old.items }
        ensures items { self.new.items ≡ slice_set self.old.items slot (Some (record { key = key; kept = kept })) }
        ensures room { self.new.room ≡ self.old.room }
    {
        self.cells[slot] = Slot { key, kept };
        self.full[slot] = true;
    }

    /// Takes what is in the slot.
    pub(crate) fn clear(&mut self, slot: usize) -> V
        requires { is_held (slot_at self.old.items slot) ≡ true }
        ensures items { self.new.items ≡ slice_set self.old.items slot None }
        ensures value { (s : Slot K V) → slot_at self.old.items slot ≡ Some s → result ≡ s.kept }
        ensures room { self.new.room ≡ self.old.room }
    {
        self.full[slot] = false;
        mem::replace(&mut self.cells[slot].kept, V::blank())
    }
}
