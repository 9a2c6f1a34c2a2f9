//! The commands that answer, and what they answer.

ghost use Rattle.std.specs.Prelude.{◌≡◌, ◌≢◌, [], ◌∷◌, IfSome, IfNone};
ghost use Rattle.std.specs.Option.{option_copied};
ghost use Rattle.commands.specs.Answers.{IsAnsweredBy};
ghost use Rattle.commands.specs.Words.{file_named_by, words_of_command, IsCommand, IsNoCommand};

use crate::answer::Answer;
use crate::fault::CommandFault;
use crate::help::explained;
use crate::named_file::{NamedFile, bytes_in};
use crate::options::{to_ask, to_trace, with_option};
use crate::registry::told_registry;
use crate::replay::replayed;
use crate::state::{told_front, told_state};
use consent::Moment;
use hook_commands::{
    AskWords, asked, assembled, check, explained_check, listing, listing_with_slots, run, traced,
};
use insn::layout::Layout;
use manual::{PAGE, VERSION};
use std::alloc::Global;

/// The words that ask for the page of commands.
#[derive(Clone, Copy, Debug)]
pub enum HelpWord {
    /// `help`.
    Help,
    /// `--help`.
    Long,
    /// `-h`.
    Short,
}

/// A command, with what its words give it.
#[derive(Clone, Copy, Debug)]
pub enum Command<'w> {
    /// `run HEX RECORDHEX`: what the hook of some code answers to a record.
    Run {
        code_hex: &'w str,
        record_hex: &'w str,
    },
    /// `run --trace HEX RECORDHEX`: the steps of that hook's run, and what it answers.
    Trace {
        code_hex: &'w str,
        record_hex: &'w str,
    },
    /// `asm FILE`: the bytes of the program that the text of a file says, as hex.
    Assemble {
        path: &'w str,
    },
    /// `list FILE`: the canonical text of the program whose code stands in a file.
    List {
        path: &'w str,
    },
    /// `list --slots FILE`: the same, with the slot before each line.
    ListSlots {
        path: &'w str,
    },
    /// `check FILE` and `check2 FILE`: whether the program whose code stands in a file is accepted, for records of version 1
    /// or 2.
    Check {
        layout: Layout,
        path: &'w str,
    },
    /// `check --why FILE` and `check2 --why FILE`: the same, and why it is refused, or what no way reaches.
    Why {
        layout: Layout,
        path: &'w str,
    },
    /// `ask KIND MOMENT CLIENT OWNER SCOPE LIFE`, and `ask2` with the same: the record of an ask in version 1 or 2, as hex.
    Ask {
        layout: Layout,
        words: AskWords<'w>,
    },
    /// `registry FILE`: what the registry in a file says.
    Registry {
        path: &'w str,
    },
    /// `state FILE`: what the state file stands for.
    State {
        path: &'w str,
    },
    /// `state --front FILE`: what a damaged state file stands for, up to the damage.
    StateFront {
        path: &'w str,
    },
    /// `replay FILE`: what the server of the transcript in a file sends to each connection.
    Replay {
        path: &'w str,
    },
    /// `help`, `--help` and `-h`: the commands.
    Help(HelpWord),
    /// `help NAME`: what a command or a fault means.
    Explain {
        name: &'w str,
    },
    /// `--version`: the version of the program.
    Version,
}

/// The command that one word names.
fn alone<'w>(name: &str) -> Option<Command<'w>>
    ensures named { IfSome result (λ command. words_of_command command ≡ name.now ∷ []) }
    ensures none { IfNone result ((command : Command) → words_of_command command ≢ name.now ∷ []) }
{
    match name {
        "help" => Some(Command::Help(HelpWord::Help)),
        "--help" => Some(Command::Help(HelpWord::Long)),
        "-h" => Some(Command::Help(HelpWord::Short)),
        "--version" => Some(Command::Version),
        _ => None,
    }
}

/// The command that two words name.
fn with_word<'w>(name: &str, word: &'w str) -> Option<Command<'w>>
    ensures named { IfSome result (λ command. words_of_command command ≡ name.now ∷ word.now ∷ []) }
    ensures none { IfNone result ((command : Command) → words_of_command command ≢ name.now ∷ word.now ∷ []) }
{
    match name {
        "asm" => Some(Command::Assemble { path: word }),
        "list" => Some(Command::List { path: word }),
        "check" => Some(Command::Check {
            layout: Layout::V1,
            path: word,
        }),
        "check2" => Some(Command::Check {
            layout: Layout::V2,
            path: word,
        }),
        "registry" => Some(Command::Registry { path: word }),
        "state" => Some(Command::State { path: word }),
        "replay" => Some(Command::Replay { path: word }),
        "help" => Some(Command::Explain { name: word }),
        _ => None,
    }
}

impl<'w> Command<'w> {
    /// The command that words name: those behind the program's name.
    pub fn from_words(words: &'w [String]) -> Option<Command<'w>>
        ensures named { IfSome result (IsCommand words.now) }
        ensures none { IfNone result (IsNoCommand words.now) }
    {
        if let Some(command) = to_ask(words) {
            return Some(command);
        }
        match words {
            [name, code_hex, record_hex] if name.as_str() == "run" => {
                Some(Command::Run {
                    code_hex: code_hex.as_str(),
                    record_hex: record_hex.as_str(),
                })
            }
            [name, option, word] => with_option(name.as_str(), option.as_str(), word.as_str()),
            [name, option, code_hex, record_hex] => to_trace(
                name.as_str(),
                option.as_str(),
                code_hex.as_str(),
                record_hex.as_str(),
            ),
            [name] => alone(name.as_str()),
            [name, word] => with_word(name.as_str(), word.as_str()),
            _ => None,
        }
    }

    /// The path of the file that the command is about.
    pub fn file(self) -> Option<&'w str>
        ensures { option_copied result ≡ file_named_by self.entry }
    {
        match self {
            Command::Run { .. } | Command::Trace { .. } | Command::Ask { .. } => None,
            Command::Assemble { path } | Command::List { path } => Some(path),
            Command::ListSlots { path } => Some(path),
            Command::Check { path, .. } | Command::Why { path, .. } => Some(path),
            Command::Registry { path } => Some(path),
            Command::State { path } | Command::StateFront { path } => Some(path),
            Command::Replay { path } => Some(path),
            Command::Help(_) | Command::Explain { .. } | Command::Version => None,
        }
    }

    /// What the command answers. `file` is its file, and `None` where that cannot be read; `now` is the moment, where it is
    /// known.
    pub fn answer(
        self,
        alloc: Global,
        file: Option<&NamedFile>,
        now: Option<Moment>,
    ) -> Result<Answer, CommandFault<'w>>
        ensures { IsAnsweredBy self.entry (option_copied file.entry) now result }
    {
        match self {
            Command::Run {
                code_hex,
                record_hex,
            } => Ok(Answer::Hook(run(alloc, code_hex, record_hex)?)),
            Command::Trace {
                code_hex,
                record_hex,
            } => Ok(Answer::Hook(traced(alloc, code_hex, record_hex)?)),
            Command::Assemble { path } => Ok(Answer::Hook(assembled(alloc, path, bytes_in(file))?)),
            Command::List { path } => Ok(Answer::Hook(listing(alloc, path, bytes_in(file))?)),
            Command::ListSlots { path } => {
                Ok(Answer::Hook(listing_with_slots(alloc, path, bytes_in(file))?))
            }
            Command::Check { layout, path } => {
                Ok(Answer::Hook(check(alloc, layout, path, bytes_in(file))?))
            }
            Command::Why { layout, path } => {
                Ok(Answer::Hook(explained_check(alloc, layout, path, bytes_in(file))?))
            }
            Command::Ask { layout, words } => Ok(Answer::Hook(asked(alloc, layout, words)?)),
            Command::Registry { path } => told_registry(alloc, path, file),
            Command::State { path } => told_state(alloc, path, bytes_in(file), now),
            Command::StateFront { path } => told_front(alloc, path, bytes_in(file), now),
            Command::Replay { path } => replayed(alloc, path, bytes_in(file)),
            Command::Help(_) => Ok(Answer::Page(PAGE)),
            Command::Explain { name } => explained(name),
            Command::Version => Ok(Answer::Page(VERSION)),
        }
    }
}
