//! The words of a command line.

ghost use Rattle.std.specs.Prelude.{◌≡◌};
ghost use Rattle.std.specs.IoError.{error_kind};
ghost use Rattle.commands.specs.StatusesParts.{words_fault};

use crate::fault::CommandFault;
use std::env;
use std::io::{Error, ErrorKind};
use std::rt::Env;

/// Why there are no words: memory was refused, or one of them is not UTF-8.
fn fault_of_words(error: &Error) -> CommandFault<'static>
    ensures { result ≡ words_fault (error_kind error.now) }
{
    match error.kind() {
        ErrorKind::OutOfMemory => CommandFault::OutOfMemory,
        _ => CommandFault::BadArguments,
    }
}

/// The words behind the program's name.
pub fn program_words(rt: &(impl Env + AllocGlobal)) -> Result<Vec<String>, CommandFault<'static>> {
    match env::args(rt) {
        Ok(args) => Ok(args.skip(1).collect(rt.alloc())?),
        Err(error) => Err(fault_of_words(&error)),
    }
}
