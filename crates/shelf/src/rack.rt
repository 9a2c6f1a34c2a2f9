//! What is kept under numbers.
ghost use Rattle.std.specs.Prelude.{◌≡◌, ◌+◌, ◌%◌, ◌<◌, ◌≤◌, ◌∷◌, ℕ, Bool, [], true, None, Some, IfOk, IfSome, IfNone, OnOk, length, nat_eq, option_copied, slice_set};
ghost use Rattle.std.specs.List.{filter};
ghost use Rattle.std.specs.List.Sorted.{IsPermutation};
ghost use Rattle.std.specs.Map.{lookup};
ghost use Rattle.chains.specs.Chained.{none};
ghost use Rattle.shelf.specs.Looking.{is_held};
ghost use Rattle.shelf.specs.Shelved.{is_keyed, slot_at};
ghost use Rattle.shelf.specs.Racked.{leaving_in, rack_entries, rack_room, set_in, FindsIn, HasCleared, HasTakenOut, IsRacked, IsSpare, PutsIn};

use crate::slots::{Blank, Slots};
use crate::stand::{MOST, heads_for};
use chains::Chains;
use std::alloc::{AllocError, Global};

/// What is kept, each under its number.
#[derive(Drop)]
pub struct Rack<V> {
    pub(crate) slots: Slots<u64, V>,
    /// The slots by number, and behind those lists the free ones.
    pub(crate) names: Chains,
    /// How many lists by number there are.
    pub(crate) lists: usize,
    /// In how many slots something is.
    pub(crate) used: usize,
}

impl<V: Blank + Drop> Rack<V> {
    /// Nothing, with so many lists by number, and the memory for so many slots.
    pub fn new(alloc: Global, lists: usize, slots: usize) -> Result<Rack<V>, AllocError>
        requires lists { 1 ≤ lists }
        requires cells { lists + 1 + slots ≤ none }
        ensures racked { IfOk result (λ rack. IsRacked rack) }
        ensures empty { IfOk result (λ rack. rack_entries rack ≡ []) }
    {
        Ok(Rack {
            slots: Slots::new(alloc, slots)?,
            names: Chains::new(alloc, lists + 1, slots)?,
            lists,
            used: 0,
        })
    }

    /// Nothing, for so many: the memory is taken at once where there is as much, or else as they come.
    pub fn sized(alloc: Global, size: u32) -> Result<Rack<V>, AllocError>
        ensures racked { IfOk result (λ rack. IsRacked rack) }
        ensures empty { IfOk result (λ rack. rack_entries rack ≡ []) }
    {
        let lists = heads_for(size);
        let slots = (size as usize).min(MOST);
        match Rack::new(alloc, lists, slots) {
            Ok(rack) => Ok(rack),
            Err(_) => Rack::new(alloc, lists, 0),
        }
    }

    /// How many are kept.
    pub fn len(&self) -> usize
        requires { IsRacked self.now }
        ensures value { result ≡ length (rack_entries self.now) }
        ensures small { result < none }
    {
        self.used
    }

    /// The slots.
    pub fn slots(&self) -> &Slots<u64, V>
        ensures { result.now ≡ self.now.slots }
    {
        &self.slots
    }

    /// Takes the memory for so many more.
    pub fn reserve(&mut self, more: usize) -> Result<(), AllocError>
        requires { IsRacked self.old }
        ensures racked { IsRacked self.new }
        ensures same { rack_entries self.new ≡ rack_entries self.old }
        ensures room { OnOk result (more ≤ rack_room self.new) }
    {
        self.slots.reserve(more)?;
        self.names.reserve(more)
    }

    // The list of the number.
    fn list_of(&self, number: u64) -> usize
        requires { IsRacked self.now }
        ensures value { result ≡ number % self.now.lists }
        ensures list { result < self.now.lists }
    {
        (number % self.lists as u64) as usize
    }

    // Whether the number is that of what is in the slot, in which something is.
    fn is_numbered(&self, slot: u32, number: u64) -> bool
        requires { is_held (slot_at self.now.slots.items slot) ≡ true }
        ensures { result ≡ is_keyed nat_eq number (slot_at self.now.slots.items slot) }
    {
        number == self.slots.at(slot as usize).key
    }

    // The slot of what has the number.
    fn find(&self, number: u64) -> Option<u32>
        requires { IsRacked self.now }
        ensures some { IfSome result (λ x. is_keyed nat_eq number (slot_at self.now.slots.items x) ≡ true) }
        ensures none { IfNone result (lookup (nat_eq number) (rack_entries self.now) ≡ None) }
    {
        let mut at = self.names.first(self.list_of(number));
        while let Some(slot) = at {
            if self.is_numbered(slot, number) {
                return Some(slot);
            }
            at = self.names.behind(slot);
        }
        None
    }

    /// What has the number.
    pub fn get(&self, number: u64) -> Option<&V>
        requires { IsRacked self.now }
        ensures { option_copied result ≡ lookup (nat_eq number) (rack_entries self.now) }
    {
        let slot = self.find(number)?;
        Some(&self.slots.at(slot as usize).kept)
    }

    // Takes what is in the slot, which has the number.
    fn evict(&mut self, slot: u32, number: u64) -> V
        requires racked { IsRacked self.old }
        requires numbered { is_keyed nat_eq number (slot_at self.old.slots.items slot) ≡ true }
        ensures racked { IsRacked self.new }
        ensures slots { self.new.slots.items ≡ slice_set self.old.slots.items slot None }
        ensures gone { HasTakenOut (rack_entries self.old) (rack_entries self.new) number result }
        ensures room { rack_room self.new ≡ rack_room self.old }
    {
        let list = self.list_of(number);
        self.names.remove(list, slot);
        self.names.push(self.lists, slot);
        self.used -= 1;
        self.slots.clear(slot as usize)
    }

    /// Takes what has the number.
    pub fn take(&mut self, number: u64) -> Option<V>
        requires { IsRacked self.old }
        ensures racked { IsRacked self.new }
        ensures some { IfSome result (λ v. HasTakenOut (rack_entries self.old) (rack_entries self.new) number v) }
        ensures none { IfNone result ((rack_entries self.new ≡ rack_entries self.old) × (lookup (nat_eq number) (rack_entries self.old) ≡ None)) }
        ensures room { rack_room self.new ≡ rack_room self.old }
    {
        let slot = self.find(number)?;
        Some(self.evict(slot, number))
    }

    /// Keeps this in the place of what has the number, if anything has.
    pub fn set(&mut self, number: u64, kept: V)
        requires { IsRacked self.old }
        ensures racked { IsRacked self.new }
        ensures set { rack_entries self.new ≡ set_in (rack_entries self.old) number kept (lookup (nat_eq number) (rack_entries self.old)) }
        ensures room { rack_room self.new ≡ rack_room self.old }
    {
        let Some(slot) = self.find(number) else {
            return;
        };
        self.slots.fill(slot as usize, number, kept);
    }

    // A slot in which nothing is, and which is in no list.
    fn free_slot(&mut self, number: u64) -> u32
        requires racked { IsRacked self.old }
        requires room { 1 ≤ rack_room self.old }
        ensures spare { IsSpare self.new result }
        ensures same { rack_entries self.new ≡ rack_entries self.old }
        ensures room { rack_room self.old ≤ rack_room self.new + 1 }
    {
        if let Some(slot) = self.names.pop(self.lists) {
            return slot;
        }
        let slot = self.slots.len() as u32;
        self.slots.widen(number);
        self.names.widen();
        slot
    }

    // Puts it into the slot, in which nothing is.
    fn fill(&mut self, slot: u32, number: u64, kept: V)
        requires spare { IsSpare self.old slot }
        requires new { lookup (nat_eq number) (rack_entries self.old) ≡ None }
        ensures racked { IsRacked self.new }
        ensures put { IsPermutation ((number, kept) ∷ rack_entries self.old) (rack_entries self.new) }
        ensures found { FindsIn (rack_entries self.old) (rack_entries self.new) number kept }
        ensures room { rack_room self.new ≡ rack_room self.old }
    {
        let list = (number % self.lists as u64) as usize;
        self.names.push(list, slot);
        self.slots.fill(slot as usize, number, kept);
        self.used += 1;
    }

    /// Keeps it under the number, in the place of what was.
    pub fn put(&mut self, number: u64, kept: V) -> Option<V>
        requires racked { IsRacked self.old }
        requires room { 1 ≤ rack_room self.old }
        ensures racked { IsRacked self.new }
        ensures puts { PutsIn (rack_entries self.old) (rack_entries self.new) number kept result }
        ensures found { FindsIn (rack_entries self.old) (rack_entries self.new) number kept }
        ensures room { rack_room self.old ≤ rack_room self.new + 1 }
    {
        let was = self.take(number);
        let slot = self.free_slot(number);
        self.fill(slot, number, kept);
        was
    }
}

/// What is kept as long as it stays.
pub trait Stays {
    /// Whether it does.
    ghost stays: { Self → Bool };

    fn stays(&self) -> bool
        ensures { result ≡ stays self.now };
}

impl<V: Stays + Blank + Drop> Rack<V> {
    // The number of what is in the slot, if it does not stay.
    fn leaving(&self, slot: usize) -> Option<u64>
        ensures { result ≡ leaving_in V.stays (slot_at self.now.slots.items slot) }
    {
        let found = self.slots.get(slot)?;
        if found.kept.stays() {
            return None;
        }
        Some(found.key)
    }

    // Lets go of what is in the slot, if it does not stay.
    fn keep_at(&mut self, slot: usize)
        requires { IsRacked self.old }
        ensures racked { IsRacked self.new }
        ensures cleared { HasCleared V.stays self.old.slots.items self.new.slots.items slot }
        ensures room { rack_room self.new ≡ rack_room self.old }
    {
        let Some(number) = self.leaving(slot) else {
            return;
        };
        self.evict(slot as u32, number);
    }

    /// Lets go of what does not stay: all is looked at.
    pub fn keep(&mut self)
        requires { IsRacked self.old }
        ensures racked { IsRacked self.new }
        ensures kept { rack_entries self.new ≡ filter (λ e. V.stays e.1) (rack_entries self.old) }
        ensures room { rack_room self.new ≡ rack_room self.old }
    {
        let mut slot = 0;
        while slot < self.slots.len() {
            self.keep_at(slot);
            slot += 1;
        }
    }
}
