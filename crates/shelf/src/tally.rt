//! How many count.
ghost use Rattle.std.specs.Prelude.{◌≡◌, ◌+◌, ◌-◌, ◌<◌, ◌≤◌, ◌==◌, ◌^◌, ℕ, OnOk, if◌then◌else◌};
ghost use Rattle.std.specs.HashMap.{spare};
ghost use Rattle.shelf.specs.Tallying.{share, Enters, EntersIf, IsSameTally, Leaves, LeavesIf};

use std::alloc::{AllocError, Global};
use std::collections::HashMap;

/// How many count, and how many of those are whose.
#[derive(Drop)]
pub struct Tally {
    pub(crate) all: usize,
    pub(crate) of: HashMap<u32, usize>,
}

impl Tally {
    /// None.
    pub(crate) fn new(alloc: Global) -> Tally
        ensures all { result.all ≡ 0 }
        ensures each { (c : ℕ) → share result c ≡ 0 }
    {
        Tally {
            all: 0,
            of: HashMap::new(alloc),
        }
    }

    /// How many are whose number this is.
    pub(crate) fn share(&self, whose: u32) -> usize
        ensures { result ≡ share self.now whose }
    {
        self.of.get(&whose).copied().unwrap_or(0)
    }

    /// Takes the memory for so many more.
    pub(crate) fn reserve(&mut self, more: usize) -> Result<(), AllocError>
        ensures same { IsSameTally self.old self.new }
        ensures room { OnOk result (more ≤ spare self.new.of) }
    {
        self.of.reserve(more)
    }

    // One more counts.
    fn enter(&mut self, whose: u32)
        requires room { 1 ≤ spare self.old.of }
        requires few { self.old.all < 2 ^ 63 }
        requires fewer { share self.old whose < 2 ^ 63 }
        ensures enters { Enters self.old self.new whose }
        ensures room { spare self.old.of ≤ spare self.new.of + 1 }
    {
        self.all += 1;
        let more = self.share(whose) + 1;
        let Ok(_) = self.of.insert(whose, more) else {
            unreachable!()
        };
    }

    // One counts no more.
    fn leave(&mut self, whose: u32)
        ensures leaves { Leaves self.old self.new whose }
        ensures room { spare self.new.of ≡ spare self.old.of }
    {
        self.all = self.all.saturating_sub(1);
        if let Some(count) = self.of.get_mut(&whose) {
            *count = count.saturating_sub(1);
        }
    }

    /// One more counts, if it does.
    pub(crate) fn enter_if(&mut self, counts: bool, whose: u32)
        requires room { 1 ≤ spare self.old.of }
        requires few { self.old.all < 2 ^ 63 }
        requires fewer { share self.old whose < 2 ^ 63 }
        ensures enters { EntersIf counts self.old self.new whose }
        ensures room { spare self.old.of ≤ spare self.new.of + 1 }
    {
        if counts {
            self.enter(whose);
        }
    }

    /// One counts no more, if it did.
    pub(crate) fn leave_if(&mut self, counted: bool, whose: u32)
        ensures leaves { LeavesIf counted self.old self.new whose }
        ensures room { spare self.new.of ≡ spare self.old.of }
    {
        if counted {
            self.leave(whose);
        }
    }
}
