//! Who an owner is, by the rules that a file tells and by a registry's.

ghost use Rattle.std.specs.Prelude.{◌≡◌, ℕ, IfOk, IsTrue, true, false};
ghost use Rattle.rules_codec.specs.Facts.{rules_fact};
ghost use Rattle.rules_beside.specs.Beside.{beside, first_moved_owner, is_former};
ghost use Rattle.rules_beside.specs.BesideParts.{has_former};

use crate::listed::Listed;
use clients::Bounds;
use std::alloc::{AllocError, Global};

/// Owners that rules tell beside those of others.
#[derive(Drop)]
pub struct OwnersBeside<'t, 'n> {
    told: Listed<'t>,
    listed: Listed<'n>,
    numbered: bool,
    told_gateway: bool,
    gateway: bool,
}

impl<'t, 'n> OwnersBeside<'t, 'n> {
    pub fn new(
        alloc: Global,
        told: &'t Bounds<'_>,
        now: &'n Bounds<'_>,
    ) -> Result<OwnersBeside<'t, 'n>, AllocError>
        ensures { IfOk result (λ owners. owners ≡ beside (rules_fact told.now) (rules_fact now.now)) }
    {
        Ok(OwnersBeside {
            told: Listed::new(alloc, &told.owners)?,
            listed: Listed::new(alloc, &now.owners)?,
            numbered: told.numbered && now.numbered,
            told_gateway: told.gateway,
            gateway: now.gateway,
        })
    }

    /// The number of the first of those told who has moved.
    pub fn first_moved(&self) -> Option<u32>
        ensures { result ≡ first_moved_owner self.now }
    {
        if self.numbered {
            return None;
        }
        self.listed.first_moved(self.told.owners())
    }

    /// Whether somebody is a former owner.
    #[tactic(auto, using(crate::specs::OwnersLaws::none_former, crate::specs::OwnersLaws::some_former))]
    pub fn has_former(&self) -> bool
        ensures value { result ≡ has_former self.now }
        ensures none { result ≡ false → (number : ℕ) → is_former self.now number ≡ false }
        ensures some { IsTrue result → (number : ℕ) × (is_former self.now number ≡ true) }
    {
        if !self.listed.has_all(self.told.owners()) {
            return true;
        }
        self.told_gateway
            && (!self.gateway || !self.numbered && !self.told.has_all(self.listed.owners()))
    }

    /// Whether who had the number is a former owner.
    #[tactic(auto, unfolding(crate::specs::Beside::is_former))]
    pub fn is_former(&self, number: u32) -> bool
        ensures { result ≡ is_former self.now number }
    {
        let listed = self.listed.has(number);
        if self.told.has(number) {
            return !listed;
        }
        self.told_gateway
            && if listed {
                !self.numbered
            } else {
                !self.gateway
            }
    }
}
