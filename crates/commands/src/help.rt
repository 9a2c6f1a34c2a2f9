//! `help`, `help NAME` and `--version`: the commands, and what each command and each fault means.

ghost use Rattle.commands.specs.Help.{IsNameExplained};

use crate::answer::Answer;
use crate::fault::CommandFault;

/// What the manual says of a name.
pub fn explained<'w>(name: &'w str) -> Result<Answer, CommandFault<'w>>
    ensures { IsNameExplained name.now result }
{
    match manual::explained(name) {
        Some(text) => Ok(Answer::Page(text)),
        None => Err(CommandFault::Unexplained(name)),
    }
}
