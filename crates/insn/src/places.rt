//! Places in a program: the instructions from a slot on.

ghost use Rattle.std.specs.Prelude.{◌≡◌, ◌<◌, ◌^◌, drop, is_some, IfSome};
ghost use Rattle.std.specs.Option.{option_map};
ghost use Rattle.insn.specs.Program.{begins_at, places};
ghost use Rattle.insn.specs.Jumps.{target as spec_target};

use crate::instruction::Insn;

/// The instructions from so many slots on, where one begins there.
pub fn skip(insns: &[Insn], slots: usize) -> Option<&[Insn]>
    ensures found { is_some result ≡ is_some (begins_at insns.now slots) }
    ensures rest { IfSome result (λ rest. places rest.now ≡ drop slots (places insns.now)) }
{
    let mut rest = insns;
    let mut left = slots;
    while let [insn, after @ ..] = rest {
        if left == 0 {
            return Some(rest);
        }
        let count = insn.slots();
        if left < count {
            return None;
        }
        left -= count;
        rest = after;
    }
    None
}

/// Where a jump leads.
#[derive(Clone, Copy, Debug)]
pub struct JumpTarget<'p> {
    /// How many slots it passes.
    pub passed: usize,
    /// The instructions from there on.
    pub rest: &'p [Insn],
}

/// Where a jump over so many slots leads, of which the instructions behind it are given: an instruction begins there.
pub fn target(after: &[Insn], distance: i32) -> Option<JumpTarget>
    ensures found { option_map (λ to. to.passed) result ≡ spec_target after.now 0 distance }
    ensures rest { IfSome result (λ to. places to.rest.now ≡ drop to.passed (places after.now)) }
    ensures short { IfSome result (λ to. to.passed < 2 ^ 31) }
{
    if distance < 0 {
        return None;
    }
    let passed = distance as usize;
    let rest = skip(after, passed)?;
    Some(JumpTarget { passed, rest })
}
