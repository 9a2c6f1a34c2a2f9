//! What a token hook's program does, and what it means that it is safe, on one page: specs/Hooks.antt. That the code does just
//! that, and that what it verifies is safe so, as laws.
#![tactic(auto)]

ghost use Rattle.std.specs.Prelude.{IsSome};
ghost use Rattle.hook_page.specs.Hooks.{Safe};
ghost use Rattle.hook_page.specs.Tied.{ExitsAreAlike, SafeIsSafe, StepsAreAlike};

use encoding::decode;
use insn::layout::Layout;
use std::alloc::Global;
use verifier::verified::{Verified, verify};

/// Each step of a program is the page's step of its slots, and it is stuck where the page is.
pub fn steps_are_the_pages()
    ensures { StepsAreAlike }
{}

/// Each exit of a run is the page's: its steps, its number, and the record that it leaves.
pub fn exits_are_the_pages()
    ensures { ExitsAreAlike }
{}

/// The bytes of a program that is safe by `insn`, as each one is that `verify` accepts, are safe by the page.
pub fn safe_programs_are_safe_by_the_page()
    ensures { SafeIsSafe }
{}

/// The program of some bytes, where it is accepted: then the bytes are safe by the page.
pub fn accepted(alloc: Global, bytes: &[u8], layout: Layout) -> Option<Verified>
    ensures { IsSome result → Safe layout bytes.now }
{
    let Ok(program) = decode(alloc, bytes) else {
        return None;
    };
    let Ok(verified) = verify(alloc, program, layout) else {
        return None;
    };
    Some(verified)
}
