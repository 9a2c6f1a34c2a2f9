//! What a command line calls for.

ghost use Rattle.std.specs.Prelude.{◌≡◌, map, string_bytes};
ghost use Rattle.std.specs.Option.{option_copied};
ghost use Rattle.start_words.specs.Options.{hook_said};
ghost use Rattle.command_line.specs.Calls.{asks_help, command_in, file_of, helped_by, hooks_named_by, password_named_by, AreNamesRead, AreWordsRead};

use crate::list_command::ListCommand;
use crate::service::Service;
use crate::state_command::StateCommand;
use commands::{Command, CommandFault};
use manual::is_command;
use start_words::HookFile;
use std::alloc::Global;

/// What a command line calls for, with what its words give.
#[derive(Drop)]
pub enum Call<'w> {
    /// A command that answers, and is over.
    Command(Command<'w>),
    /// A command on the file of a server's state.
    State(StateCommand<'w>),
    /// A command on a list in etcd.
    List(ListCommand<'w>),
    /// A command that serves connections.
    Service(Service<'w>),
}

/// Whether a word asks for help.
fn asks_help(word: &str) -> bool
    ensures { result ≡ asks_help word.now }
{
    word == "-h" || word == "--help"
}

/// The command that words ask about: they begin with its name, and the last one behind it asks for help.
fn helped<'w>(words: &'w [String]) -> Option<&'w str>
    ensures { option_copied result ≡ helped_by (map string_bytes words.now) }
{
    let (name, behind) = words.split_first()?;
    let last = behind.last()?;
    if asks_help(last.as_str()) {
        Some(name.as_str())
    } else {
        None
    }
}

/// The command's name with which words begin.
fn command_in<'w>(words: &'w [String]) -> Option<&'w str>
    ensures { option_copied result ≡ command_in (map string_bytes words.now) }
{
    let name = words.first()?.as_str();
    if is_command(name) { Some(name) } else { None }
}

impl<'w> Call<'w> {
    /// What words call for: those behind the program's name. They are read here alone.
    pub fn from_words(alloc: Global, words: &'w [String]) -> Result<Call<'w>, CommandFault<'w>>
        ensures { AreWordsRead words.now result }
    {
        match helped(words) {
            Some(name) => Ok(Call::Command(Command::Explain { name })),
            None => Call::named(alloc, words),
        }
    }

    // What words name that ask for no help.
    fn named(alloc: Global, words: &'w [String]) -> Result<Call<'w>, CommandFault<'w>>
        ensures { AreNamesRead words.now result }
    {
        if let Some(service) = Service::from_words(alloc, words)? {
            return Ok(Call::Service(service));
        }
        if let Some(command) = StateCommand::from_words(words) {
            return Ok(Call::State(command));
        }
        if let Some(command) = ListCommand::from_words(words) {
            return Ok(Call::List(command));
        }
        match Command::from_words(words) {
            Some(command) => Ok(Call::Command(command)),
            None => match command_in(words) {
                Some(name) => Err(CommandFault::BadCommand(name)),
                None => Err(CommandFault::BadArguments),
            },
        }
    }

    /// The path of the file that is read for it.
    pub fn file(&self) -> Option<&'w str>
        ensures { option_copied result ≡ file_of self.now }
    {
        match self {
            Call::Command(command) => command.file(),
            Call::State(command) => command.config(),
            Call::List(command) => command.file(),
            Call::Service(service) => Some(service.config()),
        }
    }

    /// The hooks whose files are read for it.
    pub fn hooks(&self) -> &[HookFile<'w>]
        ensures { map hook_said result.now ≡ hooks_named_by self.now }
    {
        match self {
            Call::Command(_) | Call::State(_) | Call::List(_) => &[],
            Call::Service(service) => service.hooks(),
        }
    }

    /// The path of the file in which the password of a user of etcd stands, where there is one.
    pub fn password(&self) -> Option<&'w str>
        ensures { option_copied result ≡ password_named_by self.now }
    {
        match self {
            Call::Command(_) | Call::State(_) => None,
            Call::List(command) => command.password(),
            Call::Service(service) => service.password(),
        }
    }
}
