//! What there is to explain: the commands, and each of their faults.

ghost use Rattle.std.specs.Prelude.{◌≡◌};
ghost use Rattle.std.specs.Option.{option_copied};
ghost use Rattle.manual.specs.Topics.{IsSaid};
ghost use Rattle.manual.specs.Words.{is_command};

mod code_faults;
mod commands;
mod config_faults;
mod event_faults;
mod serving_faults;
mod state_faults;
mod text_faults;
mod use_faults;
mod verdicts;

use crate::topic::{is_topic, text_named};
use code_faults::CODE_FAULTS;
use commands::COMMANDS;
use config_faults::CONFIG_FAULTS;
use event_faults::EVENT_FAULTS;
use serving_faults::SERVING_FAULTS;
use state_faults::STATE_FAULTS;
use text_faults::TEXT_FAULTS;
use use_faults::USE_FAULTS;
use verdicts::VERDICTS;

/// Whether a word is the name of a command.
pub fn is_command(name: &str) -> bool
    ensures { result ≡ is_command name.now }
{
    is_topic(&COMMANDS, name)
}

/// What the manual says of a name: its nine lists explain just these words.
pub fn explained(name: &str) -> Option<&'static str>
    ensures { IsSaid name.now (option_copied result) }
{
    text_named(&COMMANDS, name)
        .or(text_named(&USE_FAULTS, name))
        .or(text_named(&STATE_FAULTS, name))
        .or(text_named(&TEXT_FAULTS, name))
        .or(text_named(&CODE_FAULTS, name))
        .or(text_named(&VERDICTS, name))
        .or(text_named(&CONFIG_FAULTS, name))
        .or(text_named(&EVENT_FAULTS, name))
        .or(text_named(&SERVING_FAULTS, name))
}
