//! The way to a slot: by which jumps control can come there from slot 0, going on from each slot as the walk did.

ghost use Rattle.std.specs.Prelude.{◌≡◌, ◌<◌, ◌≤◌, Some, None, IfOk, slice_index_or};
ghost use Rattle.insn.specs.Program.{SLOT_LIMIT};
ghost use Rattle.hook_commands.specs.Ways.{hops_of, jump_target, onward_at, roads_of, target_past, IsToldWay, IsWayFound};
ghost use Rattle.hook_commands.specs.WaySteps.{step_of, where_led, AreWaySteps};

use insn::instruction::Insn;
use insn::program::Program;
use insn::register::RegNo;
use std::alloc::{AllocError, Global};
use std::fmt::{self, Display, Formatter, Write};
use verifier::Onward;

/// A jump that is taken.
#[derive(Clone, Copy)]
pub struct Hop {
    /// The slot of the jump.
    pub from: usize,
    /// The slot to which it leads.
    pub to: usize,
}

/// How one goes on from a slot towards a goal, and to which slot one comes.
#[derive(Clone, Copy)]
enum Step {
    /// Past the instruction, to the slot behind it.
    Past(usize),
    /// By its jump.
    Jumping(usize),
}

/// Where the walk went on from a slot.
fn onward_at(onward: &[Onward], slot: usize) -> Onward
    ensures { result ≡ onward_at onward.now slot }
{
    match onward.get(slot) {
        Some(here) => *here,
        None => Onward {
            behind: false,
            ahead: false,
        },
    }
}

/// Where one goes on behind an instruction at a slot, if the walk did and it leaves a register unwritten, if one is to
/// stay so.
fn target_past(unwritten: Option<RegNo>, onward: Onward, slot: usize, insn: Insn) -> Option<usize>
    requires { slot ≤ SLOT_LIMIT }
    ensures { result ≡ target_past unwritten onward slot insn }
{
    let leaves = match (unwritten, insn.written_by()) {
        (Some(register), Some(written)) => written.number() != register.number(),
        _ => true,
    };
    let goes = onward.behind && leaves;
    goes.then_some(slot + insn.slots())
}

/// Where the jump of an instruction at a slot leads, if the walk went there.
fn jump_target(onward: Onward, slot: usize, insn: Insn) -> Option<usize>
    requires { slot ≤ SLOT_LIMIT }
    ensures { result ≡ jump_target onward slot insn }
{
    let distance = usize::try_from(insn.distance()?).ok()?;
    onward.ahead.then_some(slot + insn.slots() + distance)
}

/// The step that a table has for a slot.
fn step_at(steps: &[Option<Step>], slot: usize) -> Option<Step>
    ensures { result ≡ slice_index_or steps.now slot None }
{
    *steps.get(slot)?
}

/// A slot, if a way leads from it to the goal.
fn where_led(steps: &[Option<Step>], goal: usize, slot: Option<usize>) -> Option<usize>
    ensures { result ≡ where_led steps.now goal slot }
{
    let slot = slot?;
    if slot == goal || step_at(steps, slot).is_some() {
        Some(slot)
    } else {
        None
    }
}

/// The step to the slot behind an instruction, if a way leads on from there, or else the step by its jump.
fn step_of(
    steps: &[Option<Step>],
    goal: usize,
    past: Option<usize>,
    jump: Option<usize>,
) -> Option<Step>
    ensures { result ≡ step_of steps.now goal past jump }
{
    if let Some(behind) = where_led(steps, goal, past) {
        return Some(Step::Past(behind));
    }
    let ahead = where_led(steps, goal, jump)?;
    Some(Step::Jumping(ahead))
}

/// For each slot the step by which one goes on towards a goal.
fn steps_to(
    alloc: Global,
    program: &Program,
    onward: &[Onward],
    unwritten: Option<RegNo>,
    goal: usize,
) -> Result<Vec<Option<Step>>, AllocError>
    ensures { IfOk result (λ steps. AreWaySteps (roads_of program.now onward.now unwritten) goal 0 steps.items) }
{
    let mut slot = program.slots();
    let mut steps: Vec<Option<Step>> = vec![in alloc; None; slot]?;
    let mut rest = program.insns();
    while let Some((insn, before)) = rest.split_last() {
        slot -= insn.slots();
        let here = onward_at(onward, slot);
        let past = target_past(unwritten, here, slot, *insn);
        let step = step_of(&steps, goal, past, jump_target(here, slot, *insn));
        steps[slot] = step;
        rest = before;
    }
    Ok(steps)
}

/// A way to a slot that the walk went, and on which nothing writes a register, if one is named; none where no such way
/// leads there. It fails only where memory is refused.
pub fn way_to(
    alloc: Global,
    program: &Program,
    onward: &[Onward],
    unwritten: Option<RegNo>,
    slot: usize,
) -> Result<Option<Vec<Hop>>, AllocError>
    ensures { IfOk result (λ way. IsWayFound (roads_of program.now onward.now unwritten) slot (hops_of way)) }
{
    let steps = steps_to(alloc, program, onward, unwritten, slot)?;
    let mut hops = Vec::new(alloc);
    let mut at = 0;
    while at != slot {
        match step_at(&steps, at) {
            Some(Step::Past(to)) => at = to,
            Some(Step::Jumping(to)) => {
                hops.push(Hop { from: at, to })?;
                at = to;
            }
            None => return Ok(None),
        }
    }
    Ok(Some(hops))
}

/// A way to a slot, as it is told.
#[derive(Drop)]
pub struct Way {
    /// Its jumps, in order.
    pub hops: Vec<Hop>,
    /// The register that nothing on it writes, if one is told.
    pub unwritten: Option<RegNo>,
}

impl Display for Way {
    fn fmt<W: Write>(&self, f: &mut Formatter<W>) -> fmt::Result {
        write!(f, "from slot 0")?;
        for hop in &self.hops {
            let Hop { from, to } = *hop;
            write!(f, ", {from} jumps to {to}")?;
        }
        if let Some(register) = self.unwritten {
            let number = register.number();
            write!(f, ": nothing writes r{number}")?;
        }
        write!(f, "\n")
    }
}

/// The way to a slot that is told: one that the walk went and on which nothing writes a register, where one is named and
/// there is such a way, and else any that the walk went; none where no way leads there. It fails only where memory is
/// refused.
pub fn told_way(
    alloc: Global,
    program: &Program,
    onward: &[Onward],
    unwritten: Option<RegNo>,
    slot: usize,
) -> Result<Option<Way>, AllocError>
    ensures { IfOk result (IsToldWay (roads_of program.now onward.now unwritten) slot) }
{
    if let Some(hops) = way_to(alloc, program, onward, unwritten, slot)? {
        return Ok(Some(Way { hops, unwritten }));
    }
    let hops = way_to(alloc, program, onward, None, slot)?;
    Ok(hops.map(|hops| Way {
        hops,
        unwritten: None,
    }))
}
