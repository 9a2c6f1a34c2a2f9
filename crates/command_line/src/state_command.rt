//! The commands that make a state file, or say what a start on one would end: their words.

ghost use Rattle.std.specs.Prelude.{◌≡◌, [], ◌∷◌, IfSome, IfNone};
ghost use Rattle.std.specs.Option.{option_copied};
ghost use Rattle.command_line.specs.StateCommands.{config_of_trial, words_of_state_command, IsNoStateCommand, IsStateCommand, NameNoStateCommand};

/// A command on the file of a server's state, with what its words give it.
#[derive(Clone, Copy, Debug)]
pub enum StateCommand<'w> {
    /// `state --new FILE`: makes a state file of no batch.
    New { path: &'w str },
    /// `registry CONFIG --state FILE`: what a start under that registry would end.
    Trial { config: &'w str, path: &'w str },
}

/// The command that a name, an option and a path name.
fn with_path<'w>(name: &str, option: &str, path: &'w str) -> Option<StateCommand<'w>>
    ensures named { IfSome result (λ command. words_of_state_command command ≡ name.now ∷ option.now ∷ path.now ∷ []) }
    ensures none { IfNone result (NameNoStateCommand (name.now ∷ option.now ∷ path.now ∷ [])) }
{
    match (name, option) {
        ("state", "--new") => Some(StateCommand::New { path }),
        _ => None,
    }
}

/// The command that a name and three words name.
fn with_paths<'w>(
    name: &str,
    first: &'w str,
    second: &'w str,
    third: &'w str,
) -> Option<StateCommand<'w>>
    ensures named { IfSome result (λ command. words_of_state_command command ≡ name.now ∷ first.now ∷ second.now ∷ third.now ∷ []) }
    ensures none { IfNone result (NameNoStateCommand (name.now ∷ first.now ∷ second.now ∷ third.now ∷ [])) }
{
    match (name, first, second) {
        ("registry", config, "--state") => Some(StateCommand::Trial {
            config,
            path: third,
        }),
        _ => None,
    }
}

impl<'w> StateCommand<'w> {
    /// The command that words name: those behind the program's name.
    pub fn from_words(words: &'w [String]) -> Option<StateCommand<'w>>
        ensures named { IfSome result (IsStateCommand words.now) }
        ensures none { IfNone result (IsNoStateCommand words.now) }
    {
        match words {
            [name, option, path] => with_path(name.as_str(), option.as_str(), path.as_str()),
            [name, first, second, third] => with_paths(
                name.as_str(),
                first.as_str(),
                second.as_str(),
                third.as_str(),
            ),
            _ => None,
        }
    }

    /// The path of the registry's file, where a start is tried.
    pub fn config(self) -> Option<&'w str>
        ensures { option_copied result ≡ config_of_trial self.entry }
    {
        match self {
            StateCommand::Trial { config, .. } => Some(config),
            StateCommand::New { .. } => None,
        }
    }
}
