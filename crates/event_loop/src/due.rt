//! Where something may be due.
ghost use Rattle.std.specs.Prelude.{◌≡◌, ◌≤◌, ◌<◌, ◌-◌, ℕ, true, false, Some, slice_get, slice_set};

use std::marker::Model;

/// What is due for a connection.
#[derive(Clone, Copy, Debug)]
pub enum Due {
    /// A close: it is over.
    Close,
    /// A read or a write.
    Work,
    /// Nothing now.
    Rest,
}

/// At which places something may be due: a read, a write or a close.
#[derive(Drop)]
pub(crate) struct DuePlaces {
    flags: [bool; 64],
    // From there on nothing is due, and right below something may be.
    end: u32,
}

impl Model for DuePlaces {
    ghost use Rattle.std.specs.Prelude.{◌≡◌, ◌≤◌, ◌<◌, ◌-◌, ℕ, List, Bool, true, false, Some, slice_get};

    ghost Value = { List Bool };

    ghost view = { λ d. d.flags };

    ghost invariant = { λ d. (d.end ≤ 64) × ((k : ℕ) → d.end ≤ k → k < 64 → slice_get d.flags k ≡ Some false) × (0 < d.end → slice_get d.flags (d.end - 1) ≡ Some true) };
}

impl DuePlaces {
    /// Nothing is due anywhere.
    pub(crate) fn nowhere() -> Self
        ensures { (k : ℕ) → k < 64 → slice_get result k ≡ Some false }
    {
        DuePlaces {
            flags: [false; 64],
            end: 0,
        }
    }

    /// From which place on nothing is due. Right below that something may be.
    pub(crate) fn end(&self) -> u32
        ensures bound { result ≤ 64 }
        ensures none { (k : ℕ) → result ≤ k → k < 64 → slice_get self.now k ≡ Some false }
        ensures last { 0 < result → slice_get self.now (result - 1) ≡ Some true }
    {
        self.end
    }

    /// Whether something may be due at the place.
    pub(crate) fn is_at(&self, k: u32) -> bool
        requires bound { k < 64 }
        ensures { slice_get self.now k ≡ Some result }
    {
        self.flags[k as usize]
    }

    /// Something may be due at the place.
    pub(crate) fn add(&mut self, k: u32)
        requires bound { k < 64 }
        ensures { self.new ≡ slice_set self.old k true }
    {
        self.flags[k as usize] = true;
        if self.end <= k {
            self.end = k + 1;
        }
    }

    /// Nothing is due at the place.
    pub(crate) fn remove(&mut self, k: u32)
        requires bound { k < 64 }
        ensures { self.new ≡ slice_set self.old k false }
    {
        self.flags[k as usize] = false;
        while self.end > 0 && !self.flags[(self.end - 1) as usize] {
            self.end -= 1;
        }
    }
}
