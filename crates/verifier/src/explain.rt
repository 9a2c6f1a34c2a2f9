//! What a look at a program finds, told at length: one walk, in order of slots.

ghost use Rattle.std.specs.Prelude.{◌≡◌, ◌<◌, ◌++◌, [], IfOk, IsErr, None, OnOk, length, slice_index_or};
ghost use Rattle.insn.specs.Refusals.{look_verdict};
ghost use Rattle.verifier.specs.Findings.{IsFinding, IsWalkFinding};
ghost use Rattle.verifier.specs.Waits.{slot_unless};

use crate::known::Known;
use crate::walk::{NOWHERE, Onward, Upshot, Waiting, visit};
use insn::first_look::first_look;
use insn::instruction::Insn;
use insn::layout::Layout;
use insn::program::Program;
use insn::verify_fault::VerifyFault;
use stack_state::Stack;
use std::alloc::{AllocError, Global};

/// Where a program is refused, and what is known there.
#[derive(Drop)]
pub struct Refusal {
    /// The fault, which names the slot.
    pub fault: VerifyFault,
    /// The slot of the instruction that is refused.
    pub slot: usize,
    /// The instruction that is refused.
    pub insn: Insn,
    /// What is known before it of the registers and the stack, in the case in which it is refused.
    pub known: Box<Known>,
    /// What is known in the other cases, for other ways that lead there.
    pub others: Vec<Box<Known>>,
    /// By slots, where the walk went on from the instructions before it.
    pub onward: Vec<Onward>,
}

/// What a look at a program finds.
#[derive(Drop)]
pub enum Finding {
    /// It is accepted. At these slots instructions begin that no way reaches.
    Accepted(Vec<usize>),
    /// The first look refuses it, whatever is known.
    Looked(VerifyFault),
    /// The walk refuses it.
    Refused(Refusal),
}

impl Known {
    /// What is known of the stack.
    pub fn stack(&self) -> &Stack
        ensures { result.now ≡ self.now.stack }
    {
        &self.stack
    }
}

/// Adds a slot to those that no way reaches, where nothing waits there.
fn note(unreached: &mut Vec<usize>, slot: usize, waiting: &Waiting) -> Result<(), AllocError>
    requires { slot < length waiting.now.cases }
    ensures { OnOk result (unreached.new.items ≡ unreached.old.items ++ slot_unless slot (slice_index_or waiting.now.cases slot [])) }
{
    if !waiting.is_reached(slot) {
        unreached.push(slot)?;
    }
    Ok(())
}

/// What the walk finds in a program in which the first look finds no fault: in order, over the instructions that some
/// way may reach.
fn walk(alloc: Global, program: &Program, layout: Layout) -> Result<Finding, AllocError>
    requires { look_verdict program.now ≡ None }
    ensures { IfOk result (IsWalkFinding layout program.now) }
{
    let slots = program.slots();
    let mut rest = program.insns();
    let mut waiting = Waiting::new(alloc, program, slots)?;
    let mut unreached = Vec::new(alloc);
    let mut onward = vec![in alloc; NOWHERE; slots]?;
    let mut slot = 0;
    while let [insn, after @ ..] = rest {
        note(&mut unreached, slot, &waiting)?;
        match visit(&mut waiting, layout, *insn, slot)? {
            Upshot::Passed(here) => onward[slot] = here,
            Upshot::Refused(fault, known, others) => {
                let fault = fault.at(slot);
                let insn = *insn;
                return Ok(Finding::Refused(Refusal {
                    fault,
                    slot,
                    insn,
                    known,
                    others,
                    onward,
                }));
            }
        }
        slot += insn.slots();
        rest = after;
    }
    Ok(Finding::Accepted(unreached))
}

/// What `verify` finds in a program, and why: the fault of the first look, and where it finds none, what the walk finds. It
/// fails only where memory is refused.
pub fn explain(alloc: Global, program: &Program, layout: Layout) -> Result<Finding, AllocError>
    ensures finding { IfOk result (IsFinding layout program.now) }
    ensures memory { IsErr result → look_verdict program.now ≡ None }
{
    match first_look(program) {
        Some(fault) => Ok(Finding::Looked(fault)),
        None => walk(alloc, program, layout),
    }
}
