//! A line of JSON.

ghost use Rattle.std.specs.Prelude.{◌≡◌, ◌++◌, IfOk, OnOk};
ghost use Rattle.state_listing.specs.Lines.{object_line, opened};

use messages::Object;
use std::alloc::{AllocError, Global};

// The object of a line of this kind, without further members.
pub(crate) fn begin_line(alloc: Global, kind: &str) -> Result<Object, AllocError>
    ensures { IfOk result (λ line. line.json.tokens ≡ opened kind.now) }
{
    let mut line = Object::new(alloc, 0)?;
    line.text("kind", kind)?;
    Ok(line)
}

// Puts the line behind others.
pub(crate) fn end_line(line: Object, lines: &mut Vec<u8>) -> Result<(), AllocError>
    ensures { OnOk result (lines.new.items ≡ lines.old.items ++ object_line line.json.tokens) }
{
    let text = line.finish()?;
    lines.extend_from_slice(&text)?;
    lines.push(b'\n')?;
    Ok(())
}
