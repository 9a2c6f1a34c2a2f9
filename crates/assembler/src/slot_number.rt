//! The numbers of the slots of a program that is being read.

ghost use Rattle.std.specs.Prelude.{◌≡◌, ◌+◌, ◌<◌, ◌≤◌, pos, ◌-ℤ◌, IfSome, IfNone};
ghost use Rattle.insn.specs.Program.{SLOT_LIMIT};

use insn::program::MAX_SLOTS;

/// The number of a slot, from 0, or of the one behind the last.
#[derive(Clone, Copy, Debug, PartialEq, Eq)]
pub struct SlotNumber {
    number: u16,
    ghost in_program: { number ≤ SLOT_LIMIT },
}

impl SlotNumber {
    /// The first one.
    pub fn first() -> Self
        ensures { result.number ≡ 0 }
    {
        SlotNumber { number: 0 }
    }

    /// The slot behind an instruction that takes one or two, where it is none behind the last.
    pub fn behind(self, slots: usize) -> Option<Self>
        requires { slots ≤ 2 }
        ensures some { IfSome result (λ slot. slot.number ≡ self.number + slots) }
        ensures none { IfNone result (SLOT_LIMIT < self.number + slots) }
    {
        let number = usize::from(self.number) + slots;
        if number <= MAX_SLOTS {
            Some(SlotNumber {
                number: number as u16,
            })
        } else {
            None
        }
    }

    /// How far a jump leads from this slot.
    pub fn distance(self, to: SlotNumber) -> i16
        ensures { result ≡ pos to.number -ℤ pos self.number }
    {
        to.number as i16 - self.number as i16
    }
}
