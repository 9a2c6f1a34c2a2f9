//! How answers and faults are printed, and how the program ends then.

ghost use Rattle.std.specs.Prelude.{◌⊎◌, ⊤, OnOk, OnErr, IfSome};
ghost use Rattle.std.specs.Io.KnownBytes.{Appends};
ghost use Rattle.commands.specs.Outputs.{output, Writes};
ghost use Rattle.commands.specs.Performed.{IsTold, IsUntold};

use crate::fault::CommandFault;
use crate::status::Status;
use std::fmt::Display;
use std::io::{self, Write};

/// Where values are printed for people, and texts written for machines, each whole and behind what was written before. A
/// contract says of it which value is printed; how that is spelled is its `Display`'s alone.
pub trait Printer: Write {
    ghost writes: { Writes Self };

    /// Prints a value, and nothing else.
    fn print<D: Display + Drop>(&mut self, value: &D) -> io::Result<()>
        ensures value { OnOk result (writes.prints _ self.old value.now self.new) }
        ensures text { OnOk result (IfSome (D.output value.now) (Appends (Self.contents self.old) (Self.contents self.new))) }
        ensures failed { OnErr result (writes.cut_off self.new) };

    /// Writes a text, and nothing else.
    fn write_text(&mut self, text: &[u8]) -> io::Result<()>
        ensures text { OnOk result (Appends (Self.contents self.old) (Self.contents self.new) text.now) }
        ensures failed { OnErr result (writes.cut_off self.new) };
}

impl<W: Write> Printer for W {
    ghost writes = { record { prints = λ _ old value new. ⊤; cut_off = λ new. ⊤ } };

    fn print<D: Display + Drop>(&mut self, value: &D) -> io::Result<()> {
        write!(self, "{value}")?;
        self.flush()
    }

    fn write_text(&mut self, text: &[u8]) -> io::Result<()> {
        self.write_all(text)?;
        self.flush()
    }
}

/// Tells a fault in one line, and says how the program then ends: where that fails, as bad use.
pub fn told<E: Printer>(fault: CommandFault<'_>, err: &mut E) -> Status
    ensures { let to = output E.contents E.writes err.old err.new in IsUntold result to ⊎ IsTold fault.entry result to }
{
    match err.print(&fault) {
        Ok(()) => fault.status(),
        Err(_) => Status::BadUse,
    }
}
