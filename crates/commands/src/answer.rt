//! What a command that is done prints.

ghost use Rattle.std.specs.Prelude.{◌≡◌, OnOk, OnErr};
ghost use Rattle.commands.specs.Outputs.{output, IsCutOff};
ghost use Rattle.commands.specs.Performed.{IsPrinted};
ghost use Rattle.commands.specs.Statuses.{status_of_answer};

use crate::output::Printer;
use crate::registry::RegistryTold;
use crate::status::Status;
use hook_commands::HookAnswer;
use std::io;

/// What a command answers.
#[derive(Drop)]
pub enum Answer {
    /// What a command about a hook answers.
    Hook(HookAnswer),
    /// What a registry says.
    Registry(RegistryTold),
    /// What a state file stands for.
    Lines(Vec<u8>),
    /// What the server of a transcript sent to each connection.
    Replayed(Vec<u8>),
    /// A text of the program's own.
    Page(&'static str),
}

impl Answer {
    /// The status with which the program ends once it is written.
    pub fn status(&self) -> Status
        ensures { result ≡ status_of_answer self.now }
    {
        match self {
            Answer::Hook(HookAnswer::Looked { .. }) => Status::Refused,
            Answer::Hook(HookAnswer::Refused(_)) => Status::Refused,
            _ => Status::Done,
        }
    }

    /// Writes all of it, to where it is to go.
    pub fn write_to<W: Printer>(&self, to: &mut W) -> io::Result<()>
        ensures printed { OnOk result (IsPrinted self.now (output W.contents W.writes to.old to.new)) }
        ensures failed { OnErr result (IsCutOff (output W.contents W.writes to.old to.new)) }
    {
        match self {
            Answer::Hook(answer) => to.print(answer),
            Answer::Registry(told) => to.print(told),
            Answer::Lines(text) => to.write_text(text),
            Answer::Replayed(bytes) => to.write_text(bytes),
            Answer::Page(text) => to.write_text(text.as_bytes()),
        }
    }
}
