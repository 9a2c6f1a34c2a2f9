//! Runs.

ghost use Rattle.std.specs.Prelude.{◌≡◌, length};
ghost use Rattle.insn.specs.Values.{record_size};
ghost use Rattle.machine.specs.Outcome.{IsOutcome};

use crate::frame::{Flow, Frame};
use insn::layout::Layout;
use insn::places::target;
use insn::program::Program;

/// How a run ends.
#[derive(Clone, Copy, Debug, PartialEq, Eq)]
pub enum Outcome {
    /// The number in R0 at the exit, and how many steps the run has, its exit among them.
    Exit(u64, usize),
    /// The slot at which the run is stuck. Past the last instruction it is the number of slots.
    Stuck(usize),
}

/// Runs a program on a record of the layout's size (RFC 9669, sections 4 and 5), and writes there what it writes.
///
/// Every run ends. A run is stuck where a register or a byte that it reads is unset, where an access leaves its
/// region or writes a byte that is read-only, where a pointer is used as a number, where R10 is written, where a
/// jump leads to no later instruction, and behind the last instruction; the record then holds the writes so far.
pub fn run_checked(program: &Program, layout: Layout, bytes: &mut [u8]) -> Outcome
    requires { length bytes.old ≡ record_size layout }
    ensures { IsOutcome layout program.now bytes.old result bytes.new }
{
    let mut frame = Frame::new();
    let mut rest = program.insns();
    let mut slot = 0;
    let mut steps = 0;
    while let [insn, after @ ..] = rest {
        let behind = slot + insn.slots();
        match frame.apply(layout, *insn, bytes) {
            Flow::Next => {
                slot = behind;
                rest = after;
            }
            Flow::Jump(distance) => match target(after, distance) {
                Some(to) => {
                    slot = behind + to.passed;
                    rest = to.rest;
                }
                None => return Outcome::Stuck(slot),
            },
            Flow::Exit(r0) => return Outcome::Exit(r0, steps + 1),
            Flow::Stuck => return Outcome::Stuck(slot),
        }
        steps += 1;
    }
    Outcome::Stuck(slot)
}
