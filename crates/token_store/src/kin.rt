//! The families, in slots.
ghost use Rattle.std.specs.Prelude.{◌≡◌, ◌≤◌, ℕ, [], None, Some, nat_eq, option_and_then, option_map, option_copied, OnOk};
ghost use Rattle.std.specs.List.{IsDistinct};
ghost use Rattle.std.specs.Map.{keys_of};
ghost use Rattle.shelf.specs.Shelved.{entries_in};
ghost use Rattle.token_store.specs.Kin.{seated};
ghost use Rattle.token_store.specs.Records.{family_numbered};
ghost use Rattle.token_store.specs.RecordsParts.{where_peopled, HasClosed, OthersStay};

use crate::record::Shared;
use shelf::{Rack, Slots};
use std::alloc::{AllocError, Global};
use std::marker::Model;

/// What the families of these numbers share: nothing yet, or a rack of it.
#[derive(Drop)]
pub(crate) struct Families {
    rack: Option<Rack<Shared>>,
    /// For how many it is made.
    size: u32,
    alloc: Global,
}

impl Model for Families {
    ghost use Rattle.token_store.specs.Kin.{Kin, IsRackedIfAny, kin_of};

    ghost Value = { Kin };

    ghost view = { λ f. kin_of f.rack };

    ghost invariant = { λ f. IsRackedIfAny f.rack };
}

impl Families {
    /// None, and no memory yet: there will be for so many.
    pub(crate) fn new(alloc: Global, size: u32) -> Families
        ensures empty { result.entries ≡ [] }
    {
        Families {
            rack: None,
            size,
            alloc,
        }
    }

    /// The family of the number.
    pub(crate) fn get(&self, number: u64) -> Option<&Shared>
        ensures value { option_copied result ≡ family_numbered self.now.entries number }
    {
        let Some(rack) = &self.rack else {
            return None;
        };
        rack.get(number)
    }

    /// Takes the memory for so many more.
    pub(crate) fn reserve(&mut self, more: usize) -> Result<(), AllocError>
        ensures same { self.new.entries ≡ self.old.entries }
        ensures room { OnOk result (more ≤ self.new.room) }
    {
        if self.rack.is_none() {
            self.rack = Some(Rack::sized(self.alloc, self.size)?);
        }
        let Some(rack) = &mut self.rack else {
            return Err(AllocError);
        };
        rack.reserve(more)
    }

    /// The family of the number is this.
    #[tactic(auto, using(crate::proofs::Keeping::put_found))]
    pub(crate) fn put(&mut self, number: u64, shared: Shared)
        requires { 1 ≤ self.old.room }
        ensures here { family_numbered self.new.entries number ≡ Some shared }
        ensures others { OthersStay self.old.entries self.new.entries number }
    {
        let Some(rack) = &mut self.rack else {
            unreachable!()
        };
        rack.put(number, shared);
    }

    /// The family of the number, if there is one, is this.
    #[tactic(auto, using(crate::proofs::Keeping::set_found))]
    pub(crate) fn set(&mut self, number: u64, shared: Shared)
        ensures here { family_numbered self.new.entries number ≡ option_map (λ was. shared) (family_numbered self.old.entries number) }
        ensures others { OthersStay self.old.entries self.new.entries number }
    {
        let Some(rack) = &mut self.rack else {
            return;
        };
        rack.set(number, shared);
    }

    /// Takes the family of the number.
    #[tactic(auto, using(crate::proofs::Keeping::taken_closed))]
    pub(crate) fn take(&mut self, number: u64) -> Option<Shared>
        ensures value { result ≡ family_numbered self.old.entries number }
        ensures closed { HasClosed self.old.entries self.new.entries number }
    {
        let Some(rack) = &mut self.rack else {
            return None;
        };
        rack.take(number)
    }

    /// The slots, if there are any yet.
    #[tactic(auto, using(crate::proofs::Keeping::kin_once))]
    pub(crate) fn slots(&self) -> Option<&Slots<u64, Shared>>
        ensures all { entries_in (seated (option_copied result)) ≡ self.now.entries }
        ensures unique { IsDistinct nat_eq (keys_of self.now.entries) }
    {
        Some(self.rack.as_ref()?.slots())
    }

    /// Lets go of those without records.
    #[tactic(auto, using(crate::proofs::Keeping::kept_peopled))]
    pub(crate) fn keep_peopled(&mut self)
        ensures { (n : ℕ) → family_numbered self.new.entries n ≡ option_and_then where_peopled (family_numbered self.old.entries n) }
    {
        if let Some(rack) = &mut self.rack {
            rack.keep();
        }
    }
}
