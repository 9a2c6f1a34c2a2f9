//! The listing of a program.

ghost use Rattle.std.specs.Prelude.{◌≡◌, IfOk};
ghost use Rattle.std.specs.String.{string_bytes};
ghost use Rattle.assembly.specs.Text.{canonical_text, Text};

use crate::line::Line;
use insn::program::Program;
use std::alloc::{AllocError, Global};

/// The canonical text of a program: each instruction on a line of its own. It fails only where memory is refused.
pub fn list(alloc: Global, program: &Program) -> Result<String, AllocError>
    ensures canonical { IfOk result (λ text. string_bytes text ≡ canonical_text program.now) }
    ensures said { IfOk result (λ text. Text (string_bytes text) program.now) }
{
    let mut text = String::new(alloc);
    for insn in program.insns() {
        let line = Line(*insn);
        write!(text, "{line}")?;
    }
    Ok(text)
}
