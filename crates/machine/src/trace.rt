//! Runs, told step by step.

ghost use Rattle.std.specs.Prelude.{◌≡◌, IfOk, length};
ghost use Rattle.insn.specs.Values.{record_size};
ghost use Rattle.machine.specs.Trace.{written_value, IsTrace};

use crate::frame::{Flow, Frame};
use crate::registers::Registers;
use crate::run::Outcome;
use insn::instruction::Insn;
use insn::layout::Layout;
use insn::places::target;
use insn::program::Program;
use insn::state::Value;
use std::alloc::{AllocError, Global};

/// What is told of a step.
#[derive(Clone, Copy, Debug, PartialEq, Eq)]
pub struct Traced {
    /// The slot at which its instruction begins.
    pub slot: usize,
    /// The instruction.
    pub insn: Insn,
    /// What the register then holds that it wrote; `None` where it wrote none.
    pub written: Option<Value>,
}

/// A run, with each of its steps.
#[derive(Drop)]
pub struct Trace {
    /// The steps in their order, the exit among them.
    pub steps: Vec<Traced>,
    /// How the run ended.
    pub outcome: Outcome,
}

/// What the register holds that an instruction wrote.
fn written(registers: &Registers, insn: Insn) -> Option<Value>
    ensures { result ≡ written_value insn registers.now }
{
    match insn.written_by() {
        Some(register) => registers.get(register),
        None => None,
    }
}

/// Runs a program on a record of the layout's size as `run_checked` does, and tells each step. It fails only where memory is
/// refused.
pub fn run_traced(
    alloc: Global,
    program: &Program,
    layout: Layout,
    bytes: &mut [u8],
) -> Result<Trace, AllocError>
    requires { length bytes.old ≡ record_size layout }
    ensures { IfOk result (λ trace. IsTrace layout program.now bytes.old trace bytes.new) }
{
    let mut steps = Vec::new(alloc);
    let mut frame = Frame::new();
    let mut rest = program.insns();
    let mut slot = 0;
    while let [insn, after @ ..] = rest {
        let insn = *insn;
        let behind = slot + insn.slots();
        match frame.apply(layout, insn, bytes) {
            Flow::Next => {
                let written = written(&frame.registers, insn);
                steps.push(Traced {
                    slot,
                    insn,
                    written,
                })?;
                slot = behind;
                rest = after;
            }
            Flow::Jump(distance) => match target(after, distance) {
                Some(to) => {
                    let written = None;
                    steps.push(Traced {
                        slot,
                        insn,
                        written,
                    })?;
                    slot = behind + to.passed;
                    rest = to.rest;
                }
                None => {
                    let outcome = Outcome::Stuck(slot);
                    return Ok(Trace { steps, outcome });
                }
            },
            Flow::Exit(r0) => {
                let written = None;
                steps.push(Traced {
                    slot,
                    insn,
                    written,
                })?;
                let outcome = Outcome::Exit(r0, steps.len());
                return Ok(Trace { steps, outcome });
            }
            Flow::Stuck => {
                let outcome = Outcome::Stuck(slot);
                return Ok(Trace { steps, outcome });
            }
        }
    }
    let outcome = Outcome::Stuck(slot);
    Ok(Trace { steps, outcome })
}
