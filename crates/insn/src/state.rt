//! What the registers and the stack of a hook hold.

ghost use Rattle.std.specs.Prelude.{◌≡◌, ◌≤◌};
ghost use Rattle.insn.specs.Values.{region_size};

use crate::layout::Layout;

/// How many bytes the stack of a run has.
pub const STACK_SIZE: usize = 512;

/// What a pointer points into.
#[derive(Clone, Copy, Debug, PartialEq, Eq)]
pub enum Region {
    Record,
    Stack,
}

impl Region {
    /// How many bytes it has.
    pub fn size(self, layout: Layout) -> usize
        ensures value { result ≡ region_size layout self }
        ensures at_most { result ≤ 512 }
    {
        match self {
            Region::Record => layout.size(),
            Region::Stack => STACK_SIZE,
        }
    }
}

/// A byte of a region, counted from 0, or the place one past its end.
#[derive(Clone, Copy, Debug, PartialEq, Eq)]
pub struct Pointer {
    pub region: Region,
    pub offset: u16,
}

/// What a register holds once it is set.
#[derive(Clone, Copy, Debug, PartialEq, Eq)]
pub enum Value {
    Number(u64),
    Address(Pointer),
}

/// What one byte of the stack holds: nothing, a byte, or one of the eight parts of a pointer, counted from 0.
#[derive(Clone, Copy, Debug, PartialEq, Eq)]
pub enum Cell {
    Unset,
    Byte(u8),
    Part(Pointer, u8),
}
