//! The fields of one slot of eight bytes.

ghost use Rattle.std.specs.Prelude.{◌≡◌, ◌<◌, length};
ghost use Rattle.encoding.specs.Spelling.{slot_bytes, IsSlot};

/// The fields of one slot.
#[derive(Clone, Copy, Debug, PartialEq, Eq)]
pub struct Slot {
    pub opcode: u8,
    pub dst: u8,
    pub src: u8,
    pub offset: i16,
    pub imm: i32,
}

impl Slot {
    /// The slot that eight bytes are.
    pub fn from_bytes(bytes: &[u8; 8]) -> Slot
        ensures bytes { slot_bytes result ≡ bytes.now }
        ensures fields { IsSlot result }
    {
        let [opcode, registers, o0, o1, i0, i1, i2, i3] = *bytes;
        let offset = u16::from_le_bytes([o0, o1]);
        let imm = u32::from_le_bytes([i0, i1, i2, i3]);
        Slot {
            opcode,
            dst: registers % 16,
            src: registers / 16,
            offset: offset.cast_signed(),
            imm: imm.cast_signed(),
        }
    }

    /// The eight bytes of the slot.
    pub fn to_bytes(self) -> [u8; 8]
        requires { IsSlot self }
        ensures { result ≡ slot_bytes self }
    {
        let [o0, o1] = self.offset.to_le_bytes();
        let [i0, i1, i2, i3] = self.imm.to_le_bytes();
        let registers = self.src * 16 + self.dst;
        [self.opcode, registers, o0, o1, i0, i1, i2, i3]
    }
}
