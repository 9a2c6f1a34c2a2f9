//! The row of cells.
ghost use Rattle.std.specs.Prelude.{◌≡◌, ◌≢◌, ◌+◌, ◌<◌, ◌≤◌, ◌^◌, ℕ, Option, None, Some, IfOk, IfSome, IfNone, OnOk, length};
ghost use Rattle.chains.specs.Chained.{Chained, HasCell, IsBehind, IsList, IsRow, IsShaped, all_moved, first_of, moved, none, room};
ghost use Rattle.chains.specs.Before.{IsBefore, IsThere};

use std::alloc::{AllocError, Global};

// What the cell of a list's last number tells.
const NONE: u32 = u32::MAX;

/// Lists of numbers, each number in at most one of them.
#[derive(Drop)]
pub struct Chains {
    /// A cell for each list tells its first number; behind them, one for each number tells the next.
    pub(crate) cells: Vec<u32>,
    /// How many lists there are.
    pub(crate) heads: usize,
}

// The number that a cell tells, if it tells one.
fn number_in(cell: u32) -> Option<u32>
    ensures none { cell ≡ none → result ≡ None }
    ensures some { cell ≢ none → result ≡ Some cell }
{
    if cell == NONE {
        return None;
    }
    Some(cell)
}

impl Chains {
    /// So many empty lists, and the memory for so many numbers.
    pub fn new(alloc: Global, heads: usize, numbers: usize) -> Result<Chains, AllocError>
        requires { heads + numbers ≤ none }
        ensures empty { IfOk result (λ chains. Chained chains (λ x. None)) }
        ensures heads { IfOk result (λ chains. chains.heads ≡ heads) }
        ensures few { IfOk result (λ chains. length chains.cells.items ≡ heads) }
        ensures room { IfOk result (λ chains. numbers ≤ room chains) }
    {
        let mut cells = Vec::with_capacity(alloc, heads + numbers)?;
        cells.resize(heads, NONE)?;
        Ok(Chains { cells, heads })
    }

    /// How many lists there are.
    pub fn lists(&self) -> usize
        ensures { result ≡ self.now.heads }
    {
        self.heads
    }

    /// Takes the memory for so many numbers more.
    pub fn reserve(&mut self, more: usize) -> Result<(), AllocError>
        ensures same { (place : ℕ → Option ℕ) → Chained self.old place → Chained self.new place }
        ensures heads { self.new.heads ≡ self.old.heads }
        ensures cells { length self.new.cells.items ≡ length self.old.cells.items }
        ensures room { OnOk result (more ≤ room self.new) }
    {
        if more > (NONE as usize).saturating_sub(self.cells.len()) {
            return Err(AllocError);
        }
        self.cells.reserve(more)
    }

    /// One number more can be in a list, which there is memory for.
    pub fn widen(&mut self)
        requires { 1 ≤ room self.old }
        ensures heads { self.new.heads ≡ self.old.heads }
        ensures wider { length self.new.cells.items ≡ length self.old.cells.items + 1 }
        ensures room { room self.old ≤ room self.new + 1 }
        ensures same { (place : ℕ → Option ℕ) → Chained self.old place → Chained self.new place }
    {
        let Ok(()) = self.cells.push(NONE) else {
            unreachable!()
        };
    }

    /// The first number of the list.
    pub fn first(&self, list: usize) -> Option<u32>
        requires { IsList self.now list }
        ensures { (place : ℕ → Option ℕ) (chained : Chained self.now place) → result ≡ first_of (chained.lists list) }
    {
        number_in(self.cells[list])
    }

    /// The number that comes behind this one in its list.
    pub fn behind(&self, number: u32) -> Option<u32>
        requires { HasCell self.now number }
        ensures { (place : ℕ → Option ℕ) (chained : Chained self.now place) → IsBehind chained number result }
    {
        number_in(self.cells[self.heads + number as usize])
    }

    /// Puts the number, which is in no list, at the head of one.
    pub fn push(&mut self, list: usize, number: u32)
        requires list { IsList self.old list }
        requires cell { HasCell self.old number }
        ensures shape { IsShaped self.old self.new }
        ensures put { (place : ℕ → Option ℕ) → Chained self.old place → place number ≡ None → Chained self.new (moved place number (Some list)) }
    {
        let own = self.heads + number as usize;
        self.cells[own] = self.cells[list];
        self.cells[list] = number;
    }

    /// Takes the first number out of the list.
    pub fn pop(&mut self, list: usize) -> Option<u32>
        requires list { IsList self.old list }
        requires row { IsRow self.old }
        ensures shape { IsShaped self.old self.new }
        ensures same { IfNone result (self.new ≡ self.old) }
        ensures cell { IfSome result (λ x. HasCell self.old x) }
        ensures out { IfSome result (λ x. (place : ℕ → Option ℕ) → Chained self.old place → (place x ≡ Some list) × Chained self.new (moved place x None)) }
        ensures none { IfNone result ((place : ℕ → Option ℕ) → Chained self.old place → ((x : ℕ) → place x ≢ Some list) × Chained self.new place) }
    {
        let first = number_in(self.cells[list])?;
        self.cells[list] = self.cells[self.heads + first as usize];
        Some(first)
    }

    /// Takes the number out of the list, which it is in.
    pub fn remove(&mut self, list: usize, number: u32)
        requires { IsThere self.old list number }
        ensures shape { IsShaped self.old self.new }
        ensures out { (place : ℕ → Option ℕ) → Chained self.old place → place number ≡ Some list → Chained self.new (moved place number None) }
    {
        let cell = self.cell_before(list, number);
        self.cells[cell] = self.cells[self.heads + number as usize];
    }

    // The cell that tells the number, in the list that it is in.
    fn cell_before(&self, list: usize, number: u32) -> usize
        requires { IsThere self.now list number }
        ensures { IsBefore self.now list number result }
    {
        let mut cell = list;
        while self.cells[cell] != number {
            cell = self.heads + self.cells[cell] as usize;
        }
        cell
    }

    /// Puts all that is in the one list into the other, which is empty.
    pub fn move_all(&mut self, from: usize, to: usize)
        requires from { IsList self.old from }
        requires to { IsList self.old to }
        requires differ { from ≢ to }
        ensures shape { IsShaped self.old self.new }
        ensures moved { (place : ℕ → Option ℕ) → Chained self.old place → ((x : ℕ) → place x ≢ Some to) → Chained self.new (all_moved place from to) }
    {
        self.cells[to] = self.cells[from];
        self.cells[from] = NONE;
    }
}
