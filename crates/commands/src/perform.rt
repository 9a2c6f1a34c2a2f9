//! A command, from its words' meaning to what is written and how the program then ends.

ghost use Rattle.std.specs.Prelude.{◌⊎◌};
ghost use Rattle.std.specs.Option.{option_copied};
ghost use Rattle.commands.specs.Outputs.{output, outputs};
ghost use Rattle.commands.specs.Performed.{EndsCommand, IsUnwritten};

use crate::command::Command;
use crate::fault::CommandFault;
use crate::named_file::NamedFile;
use crate::output::{Printer, told};
use crate::status::Status;
use consent::Moment;
use std::alloc::Global;

/// Carries out a command that answers, and says how the program then ends. `file` is the file that it names, and `None` where
/// that cannot be read; `now` is the moment, where it is known. The answer goes to `out`, once all of it is known; a fault goes to
/// `err` as one line. A write that fails is bad use.
pub fn perform_command<W: Printer, E: Printer>(
    alloc: Global,
    command: Command<'_>,
    file: Option<&NamedFile>,
    now: Option<Moment>,
    out: &mut W,
    err: &mut E,
) -> Status
    ensures { let to = outputs (output W.contents W.writes out.old out.new) (output E.contents E.writes err.old err.new) in
        IsUnwritten result to ⊎ EndsCommand command.entry (option_copied file.entry) now result to }
{
    match command.answer(alloc, file, now) {
        Ok(answer) => match answer.write_to(out) {
            Ok(()) => answer.status(),
            Err(_) => told(CommandFault::CannotWrite, err),
        },
        Err(fault) => told(fault, err),
    }
}
