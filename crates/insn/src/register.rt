//! The registers.

ghost use Rattle.std.specs.Prelude.{◌≡◌, ◌<◌, IfSome, IfNone};
ghost use Rattle.insn.specs.Instruction.{reg_number};

/// A register (RFC 9669, section 2.1). R10 is the frame pointer and is only read.
#[derive(Clone, Copy, Debug, PartialEq, Eq)]
pub enum RegNo {
    R0,
    R1,
    R2,
    R3,
    R4,
    R5,
    R6,
    R7,
    R8,
    R9,
    R10,
}

impl RegNo {
    /// Its number, from 0.
    pub fn number(self) -> usize
        ensures value { result ≡ reg_number self }
        ensures in_range { result < 11 }
    {
        self as usize
    }
    /// The register of a number, where there is one.
    pub fn from_number(number: u64) -> Option<RegNo>
        ensures some { IfSome result (λ r. reg_number r ≡ number) }
        ensures none { IfNone result (10 < number) }
    {
        match number {
            0 => Some(RegNo::R0),
            1 => Some(RegNo::R1),
            2 => Some(RegNo::R2),
            3 => Some(RegNo::R3),
            4 => Some(RegNo::R4),
            5 => Some(RegNo::R5),
            6 => Some(RegNo::R6),
            7 => Some(RegNo::R7),
            8 => Some(RegNo::R8),
            9 => Some(RegNo::R9),
            10 => Some(RegNo::R10),
            _ => None,
        }
    }
}
