//! What is read later: what is chosen by this needs no proof.

ghost use Rattle.std.specs.Prelude.{◌<◌};

use insn::action::Action;
use insn::instruction::Operand;
use insn::operation::{BinOp, Size};
use insn::program::Program;
use insn::register::RegNo;
use std::alloc::{AllocError, Global};

/// Some registers, each by a bit.
#[derive(Clone, Copy)]
struct Registers {
    bits: u16,
}

impl Registers {
    /// None.
    const NONE: Registers = Registers { bits: 0 };

    /// All.
    const ALL: Registers = Registers { bits: 0x7ff };

    /// These and one.
    fn with(self, register: RegNo) -> Registers {
        Registers {
            bits: self.bits | 1 << register.number(),
        }
    }

    /// These and that of an operand, where it is one.
    fn with_operand(self, operand: Operand) -> Registers {
        match operand {
            Operand::Reg(register) => self.with(register),
            Operand::Imm(_) => self,
        }
    }

    /// These but one.
    fn without(self, register: RegNo) -> Registers {
        Registers {
            bits: self.bits & !(1 << register.number()),
        }
    }

    /// These and others.
    fn or(self, others: Registers) -> Registers {
        Registers {
            bits: self.bits | others.bits,
        }
    }

    /// Whether the one of a number is among them.
    fn has(self, number: usize) -> bool
        requires { number < 11 }
    {
        self.bits >> number & 1 == 1
    }
}

/// The bit of the block of the stack in which a byte stands so far from R10.
fn block_of(below: u32) -> u64 {
    if below < 1 || below > 512 {
        return 0;
    }
    1 << (512 - below) / 8
}

/// The bits of the blocks in which so many bytes stand, the first one so far from R10.
fn blocks_of(size: Size, offset: i16) -> u64 {
    let below = i32::from(offset).unsigned_abs();
    block_of(below) | block_of(below.saturating_sub(size.bytes() as u32 - 1))
}

/// What is read: some registers, and some blocks of eight bytes of the stack, each by a bit.
#[derive(Clone, Copy)]
pub struct Read {
    registers: Registers,
    blocks: u64,
}

impl Read {
    /// Nothing.
    const NONE: Read = Read {
        registers: Registers::NONE,
        blocks: 0,
    };

    /// All.
    const ALL: Read = Read {
        registers: Registers::ALL,
        blocks: u64::MAX,
    };

    /// Whether the register of a number is read.
    pub fn has_register(self, number: usize) -> bool
        requires { number < 11 }
    {
        self.registers.has(number)
    }

    /// Whether the block of a number is read.
    pub fn has_block(self, number: usize) -> bool
        requires { number < 64 }
    {
        self.blocks >> number & 1 == 1
    }

    /// This and what else is read.
    fn or(self, other: Read) -> Read {
        Read {
            registers: self.registers.or(other.registers),
            blocks: self.blocks | other.blocks,
        }
    }

    /// This and two registers, the second one where an operand is one.
    fn with_both(self, register: RegNo, operand: Operand) -> Read {
        Read {
            registers: self.registers.with(register).with_operand(operand),
            ..self
        }
    }

    /// This before a register becomes an operand's value.
    fn before_move(self, to: RegNo, from: Operand) -> Read {
        Read {
            registers: self.registers.without(to).with_operand(from),
            ..self
        }
    }

    /// This before a load. One through a register that may point to the stack may read all of that.
    fn before_load(
        self,
        size: Size,
        (to, from): (RegNo, RegNo),
        offset: i16,
        pointers: Registers,
    ) -> Read {
        let loaded = match from {
            RegNo::R10 => blocks_of(size, offset),
            _ if pointers.has(from.number()) => u64::MAX,
            _ => 0,
        };
        let read = self.before_move(to, Operand::Reg(from));
        Read {
            blocks: read.blocks | loaded,
            ..read
        }
    }

    /// This before a store. One of eight bytes may fill a block.
    fn before_store(self, size: Size, to: RegNo, offset: i16, operand: Operand) -> Read {
        let filled = match (size, to) {
            (Size::Eight, RegNo::R10) if offset % 8 == 0 => blocks_of(size, offset),
            _ => 0,
        };
        let read = self.with_both(to, operand);
        Read {
            blocks: read.blocks & !filled,
            ..read
        }
    }
}

/// The registers that may point to the stack somewhere in a program: R10, those to which one of them is copied, and those in
/// which eight bytes are loaded through one of them.
fn pointers_of(program: &Program) -> Registers {
    let mut pointers = Registers::NONE.with(RegNo::R10);
    for insn in program.insns() {
        match insn.action() {
            Action::Operate(_, BinOp::Mov, to, Operand::Reg(from))
            | Action::LoadFrom(Size::Eight, _, to, from, _)
                if pointers.has(from.number()) => {
                pointers = pointers.with(to);
            }
            _ => {}
        }
    }
    pointers
}

/// By slots, what a program reads from there on before it is written. It is noted once it is asked for.
#[derive(Drop)]
pub struct Later<'p> {
    program: &'p Program,
    by_slots: Vec<Read>,
}

impl<'p> Later<'p> {
    /// What a program reads.
    pub fn new(alloc: Global, program: &'p Program) -> Later<'p> {
        Later {
            program,
            by_slots: Vec::new(alloc),
        }
    }

    /// What is read from a slot on.
    pub fn at(&mut self, alloc: Global, slot: usize) -> Result<Read, AllocError> {
        if self.by_slots.is_empty() {
            self.by_slots = vec![in alloc; Read::NONE; self.program.slots()]?;
            self.note_all();
        }
        Ok(self.noted(slot))
    }

    /// Notes what is read from each instruction on, from the last one back.
    #[inline(never)]
    fn note_all(&mut self) {
        let pointers = pointers_of(self.program);
        let mut slot = self.by_slots.len();
        let mut read = Read::NONE;
        for insn in self.program.insns().iter().rev() {
            read = self.before(insn.action(), slot, read, pointers);
            slot = slot.saturating_sub(insn.slots());
            if let Some(here) = self.by_slots.get_mut(slot) {
                *here = read;
            }
        }
    }

    /// What is read from an instruction on, by what is from the slot behind it on.
    fn before(&self, action: Action, behind: usize, read: Read, pointers: Registers) -> Read {
        match action {
            Action::Operate(_, BinOp::Mov, to, from) => read.before_move(to, from),
            Action::Operate(_, _, register, operand) => read.with_both(register, operand),
            Action::Convert(_, _, to, from) => read.before_move(to, Operand::Reg(from)),
            Action::LoadWord(to, _) => read.before_move(to, Operand::Imm(0)),
            Action::LoadFrom(size, _, to, from, offset) => {
                read.before_load(size, (to, from), offset, pointers)
            }
            Action::StoreAt(size, to, offset, operand) => {
                read.before_store(size, to, offset, operand)
            }
            Action::Go(distance) => self.ahead(behind, distance),
            Action::Branch(_, _, left, right, distance) => self
                .ahead(behind, i32::from(distance))
                .or(read)
                .with_both(left, right),
            Action::End => Read::NONE.with_both(RegNo::R0, Operand::Imm(0)),
        }
    }

    /// What is read from so far behind a slot on.
    fn ahead(&self, behind: usize, distance: i32) -> Read {
        self.noted(behind.saturating_add(distance.unsigned_abs() as usize))
    }

    /// What is noted of a slot.
    fn noted(&self, slot: usize) -> Read {
        match self.by_slots.get(slot) {
            Some(read) => *read,
            None => Read::ALL,
        }
    }
}
