//! The commands that have an option, or many words.

ghost use Rattle.std.specs.Prelude.{◌≡◌, ◌≢◌, [], ◌∷◌, map, string_bytes, IfSome, IfNone};
ghost use Rattle.commands.specs.Words.{ask_words, words_of_command, IsAsking, IsCommand, NameNone, NameNoOptional};

use crate::command::Command;
use hook_commands::AskWords;
use insn::layout::Layout;

/// The command about a file that a name, an option and the file's path name.
pub fn with_option<'w>(name: &str, option: &str, word: &'w str) -> Option<Command<'w>>
    ensures named { IfSome result (λ command. words_of_command command ≡ name.now ∷ option.now ∷ word.now ∷ []) }
    ensures none { IfNone result (NameNoOptional (name.now ∷ option.now ∷ word.now ∷ [])) }
{
    match (name, option) {
        ("list", "--slots") => Some(Command::ListSlots { path: word }),
        ("check", "--why") => Some(Command::Why {
            layout: Layout::V1,
            path: word,
        }),
        ("check2", "--why") => Some(Command::Why {
            layout: Layout::V2,
            path: word,
        }),
        ("state", "--front") => Some(Command::StateFront { path: word }),
        _ => None,
    }
}

/// The command that a name, an option and two texts of hex name.
pub fn to_trace<'w>(
    name: &str,
    option: &str,
    code_hex: &'w str,
    record_hex: &'w str,
) -> Option<Command<'w>>
    ensures named { IfSome result (λ command.
        words_of_command command ≡ name.now ∷ option.now ∷ code_hex.now ∷ record_hex.now ∷ []) }
    ensures none { IfNone result (NameNone (name.now ∷ option.now ∷ code_hex.now ∷ record_hex.now ∷ [])) }
{
    match (name, option) {
        ("run", "--trace") => Some(Command::Trace {
            code_hex,
            record_hex,
        }),
        _ => None,
    }
}

/// The command that a name and the words of an ask name.
fn asking<'w>(name: &str, words: AskWords<'w>) -> Option<Command<'w>>
    ensures named { IfSome result (λ command. words_of_command command ≡ name.now ∷ ask_words words.entry) }
    ensures none { IfNone result (NameNone (name.now ∷ ask_words words.entry)) }
{
    let layout = match name {
        "ask" => Layout::V1,
        "ask2" => Layout::V2,
        _ => return None,
    };
    Some(Command::Ask { layout, words })
}

/// The command that tells an ask, where words name one.
pub fn to_ask<'w>(words: &'w [String]) -> Option<Command<'w>>
    ensures named { IfSome result (IsCommand words.now) }
    ensures none { IfNone result ((command : Command) → IsAsking command →
        map string_bytes words.now ≢ words_of_command command) }
{
    match words {
        [name, kind, now, client, owner, scope, life] => asking(
            name.as_str(),
            AskWords {
                kind: kind.as_str(),
                now: now.as_str(),
                client: client.as_str(),
                owner: owner.as_str(),
                scope: scope.as_str(),
                life: life.as_str(),
            },
        ),
        _ => None,
    }
}
