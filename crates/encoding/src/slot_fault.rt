//! Why the bytes of one instruction are none.

ghost use Rattle.std.specs.Prelude.{◌≡◌};
ghost use Rattle.encoding.specs.Spelling.{slot_fault_at};

use insn::fault::InsnFault;

/// What is wrong with one instruction's bytes.
#[derive(Clone, Copy, Debug, PartialEq, Eq)]
pub enum SlotFault {
    UnknownOpcode,
    BadRegister,
    NonzeroField,
    TruncatedWide,
    Atomic,
    Call,
    LegacyLoad,
}

impl SlotFault {
    /// The fault at a slot.
    pub fn at(self, slot: usize) -> InsnFault
        ensures { result ≡ slot_fault_at self slot }
    {
        match self {
            SlotFault::UnknownOpcode => InsnFault::UnknownOpcode(slot),
            SlotFault::BadRegister => InsnFault::BadRegister(slot),
            SlotFault::NonzeroField => InsnFault::NonzeroField(slot),
            SlotFault::TruncatedWide => InsnFault::TruncatedWide(slot),
            SlotFault::Atomic => InsnFault::Atomic(slot),
            SlotFault::Call => InsnFault::Call(slot),
            SlotFault::LegacyLoad => InsnFault::LegacyLoad(slot),
        }
    }
}
