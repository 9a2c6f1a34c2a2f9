//! What is told of a program that is looked at: why it is refused, or which slots nothing reaches.

ghost use Rattle.std.specs.Prelude.{◌≡◌, IfOk, map};
ghost use Rattle.std.specs.Box.{box_value};
ghost use Rattle.std.specs.Option.{option_copied};
ghost use Rattle.hook_commands.specs.Explanations.{fault_name as spec_fault_name, read_of, unset_among, AreCasesTold, IsExplanation, IsHelp, IsReadTold, IsRefusalTold};

use crate::answer::HookAnswer;
use crate::back::jump_told;
use crate::bytes_told::{BytesTold, bytes_told};
use crate::known_text::KnownText;
use crate::reading::{left_read, right_read};
use crate::way::{Way, told_way};
use insn::instruction::Insn;
use insn::layout::Layout;
use insn::program::Program;
use insn::register::RegNo;
use insn::verify_fault::VerifyFault;
use lister::Line;
use reg_kind::Reg;
use std::alloc::{AllocError, Global};
use std::fmt::{self, Display, Formatter, Write};
use verifier::Known;
use verifier::explain::{Finding, Refusal, explain};

/// A register that an instruction reads, and what is known of it.
#[derive(Clone, Copy)]
pub struct ReadRegister {
    pub register: RegNo,
    pub known: Reg,
}

impl Display for ReadRegister {
    fn fmt<W: Write>(&self, f: &mut Formatter<W>) -> fmt::Result {
        let (number, known) = (self.register.number(), KnownText(self.known));
        write!(f, "r{number}: {known}\n")
    }
}

/// What is known, in one case, of what an instruction reads.
#[derive(Drop)]
pub struct ReadTold {
    /// Of the register that stands first in it.
    pub left: Option<ReadRegister>,
    /// Of the one that stands second.
    pub right: Option<ReadRegister>,
    /// Of the bytes of the stack.
    pub bytes: Vec<BytesTold>,
}

impl Display for ReadTold {
    fn fmt<W: Write>(&self, f: &mut Formatter<W>) -> fmt::Result {
        if let Some(left) = self.left {
            write!(f, "{left}")?;
        }
        if let Some(right) = self.right {
            write!(f, "{right}")?;
        }
        for bytes in &self.bytes {
            write!(f, "{bytes}")?;
        }
        Ok(())
    }
}

/// What is told of a refusal by the walk.
#[derive(Drop)]
pub struct RefusalTold {
    /// The fault.
    pub fault: VerifyFault,
    /// The slot of the instruction that is refused.
    pub slot: usize,
    /// That instruction.
    pub insn: Insn,
    /// What is known of what it reads, in the case in which it is refused.
    pub read: ReadTold,
    /// What is known of that in each other case.
    pub others: Vec<ReadTold>,
    /// A way that leads there.
    pub way: Option<Way>,
    /// What the manual says of the fault.
    pub help: &'static str,
}

impl Display for RefusalTold {
    fn fmt<W: Write>(&self, f: &mut Formatter<W>) -> fmt::Result {
        let (fault, slot, line) = (self.fault, self.slot, Line(self.insn));
        write!(f, "refused {fault}\n{slot}: {line}")?;
        if !self.others.is_empty() {
            write!(f, "in the case that is refused:\n")?;
        }
        let read = &self.read;
        write!(f, "{read}")?;
        for other in &self.others {
            write!(f, "in another case:\n{other}")?;
        }
        if let Some(way) = &self.way {
            write!(f, "{way}")?;
        }
        let help = self.help;
        write!(f, "\n{help}")
    }
}

/// The name by which a fault is explained.
fn fault_name(fault: VerifyFault) -> &'static str
    ensures { result.now ≡ spec_fault_name fault }
{
    match fault {
        VerifyFault::JumpOut(_) => "JumpOut",
        VerifyFault::JumpBack(_) => "JumpBack",
        VerifyFault::JumpIntoWide(_) => "JumpIntoWide",
        VerifyFault::WritesR10(_) => "WritesR10",
        VerifyFault::FallsOff(_) => "FallsOff",
        VerifyFault::UnsetRegister(_) => "UnsetRegister",
        VerifyFault::UnsetByte(_) => "UnsetByte",
        VerifyFault::OutOfRegion(_) => "OutOfRegion",
        VerifyFault::ReadOnlyField(_) => "ReadOnlyField",
        VerifyFault::PointerMisuse(_) => "PointerMisuse",
        VerifyFault::ExitsWithPointer(_) => "ExitsWithPointer",
        VerifyFault::PointerRange(_) => "PointerRange",
        VerifyFault::Memory => "Memory",
    }
}

/// What the manual says of a fault.
fn help_on(fault: VerifyFault) -> &'static str
    ensures { IsHelp fault result.now }
{
    match manual::explained(fault_name(fault)) {
        Some(text) => text,
        None => "",
    }
}

/// What is known of a register that is read, if one is.
fn read_of(known: &Known, register: Option<RegNo>) -> Option<ReadRegister>
    ensures { result ≡ read_of known.now register }
{
    let register = register?;
    Some(ReadRegister {
        register,
        known: known.register(register),
    })
}

/// The register that is read, if it is unset, as it was at the start, where r1 and r10 alone are set.
fn unset_among(read: Option<ReadRegister>) -> Option<RegNo>
    ensures { result ≡ unset_among read }
{
    let ReadRegister { register, known } = read?;
    match (register, known) {
        (RegNo::R1 | RegNo::R10, _) => None,
        (_, Reg::Unset) => Some(register),
        (_, Reg::Number(_) | Reg::Record(_) | Reg::Stack(_)) => None,
    }
}

/// What is known, in one case, of what an instruction reads. It fails only where memory is refused.
fn read_told(
    alloc: Global,
    layout: Layout,
    insn: Insn,
    known: &Known,
) -> Result<ReadTold, AllocError>
    ensures { IfOk result (IsReadTold layout insn known.now) }
{
    let action = insn.action();
    Ok(ReadTold {
        left: read_of(known, left_read(action)),
        right: read_of(known, right_read(action)),
        bytes: bytes_told(alloc, layout, known, action)?,
    })
}

/// The same in each of some cases.
fn cases_told(
    alloc: Global,
    layout: Layout,
    insn: Insn,
    cases: &[Box<Known>],
) -> Result<Vec<ReadTold>, AllocError>
    ensures { IfOk result (λ told. AreCasesTold layout insn (map box_value cases.now) told.items) }
{
    let mut told = Vec::new(alloc);
    for known in cases {
        told.push(read_told(alloc, layout, insn, known)?)?;
    }
    Ok(told)
}

/// What is told of a refusal by the walk: the fault and the instruction, what is known of what it reads in each case, a way
/// that leads there, on which nothing writes the first register that it finds unset, as it was at the start, and what the
/// manual says.
fn refusal_told(
    alloc: Global,
    program: &Program,
    layout: Layout,
    refusal: &Refusal,
) -> Result<RefusalTold, AllocError>
    ensures { IfOk result (IsRefusalTold layout program.now refusal.now) }
{
    let (fault, slot, insn) = (refusal.fault, refusal.slot, refusal.insn);
    let read = read_told(alloc, layout, insn, &refusal.known)?;
    let others = cases_told(alloc, layout, insn, &refusal.others)?;
    let unset = unset_among(read.left).or(unset_among(read.right));
    let way = told_way(alloc, program, &refusal.onward, unset, slot)?;
    Ok(RefusalTold {
        fault,
        slot,
        insn,
        read,
        others,
        way,
        help: help_on(fault),
    })
}

/// What is found of a program, told at length: the fault that `verify` has, what is known where it is refused, the way
/// that leads there, and what the manual says of it; or the slots that no way reaches. It fails only where memory is refused.
pub fn explanation(
    alloc: Global,
    program: &Program,
    layout: Layout,
) -> Result<HookAnswer, AllocError>
    ensures { IfOk result (IsExplanation layout program.now) }
{
    match explain(alloc, program, layout)? {
        Finding::Accepted(unreached) => Ok(HookAnswer::Reached {
            count: program.len(),
            unreached,
        }),
        Finding::Looked(fault) => Ok(HookAnswer::Looked {
            fault,
            jump: jump_told(program, fault),
            help: help_on(fault),
        }),
        Finding::Refused(refusal) => Ok(HookAnswer::Refused(refusal_told(
            alloc, program, layout, &refusal,
        )?)),
    }
}
