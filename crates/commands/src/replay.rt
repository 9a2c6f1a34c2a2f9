//! `replay FILE`: what the server of the transcript in a file sends to each connection.

ghost use Rattle.std.specs.Option.{option_copied};
ghost use Rattle.commands.specs.Transcripts.{IsReplayedAs};

use crate::answer::Answer;
use crate::fault::CommandFault;
use hook_commands::text_in;
use std::alloc::Global;
use transcript::{ReplayFault, replay};

/// What the server of the transcript in a file sends to each connection.
pub fn replayed<'w>(
    alloc: Global,
    path: &'w str,
    file: Option<&[u8]>,
) -> Result<Answer, CommandFault<'w>>
    ensures { IsReplayedAs path.now (option_copied file.entry) result }
{
    let Some(text) = text_in(file) else {
        return Err(CommandFault::CannotRead(path));
    };
    match replay(alloc, text) {
        Ok(output) => Ok(Answer::Replayed(output)),
        Err(ReplayFault::Memory) => Err(CommandFault::OutOfMemory),
        Err(fault) => Err(CommandFault::Replay(fault)),
    }
}
