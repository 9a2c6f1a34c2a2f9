//! The commands on a list in etcd: their words.

ghost use Rattle.std.specs.Prelude.{◌≡◌, ◌≢◌, ◌∷◌, ℕ, List, Some, IfSome, IfNone, map};
ghost use Rattle.std.specs.Option.{option_copied};
ghost use Rattle.std.specs.String.{string_bytes};
ghost use Rattle.command_line.specs.ListCommands.{IsList, IsNoList, NameList, NameNoList, NameNoState, NameNoUser, NameState, NameUser, file_of_list, list_of, password_of_list};

use start_words::{ListWords, UserWords};

/// A command on a list in etcd, with what its words give it.
#[derive(Clone, Copy, Debug)]
pub enum ListCommand<'w> {
    /// `state --etcd ..`: what it stands for.
    Show {
        list: ListWords<'w>,
    },
    /// `state --new --etcd ..`: makes a list of no batch.
    New {
        list: ListWords<'w>,
    },
    /// `state --from FILE --etcd ..`: makes a list of what stands in a file.
    From {
        path: &'w str,
        list: ListWords<'w>,
    },
    /// `state --to FILE --etcd ..`: makes a file of what stands in it.
    To {
        path: &'w str,
        list: ListWords<'w>,
    },
    /// `registry CONFIG --etcd ..`: what a start under that registry would end.
    Trial {
        config: &'w str,
        list: ListWords<'w>,
    },
}

/// The word behind an option of this name, where words begin with that, and the words behind it.
fn behind_option<'w>(words: &'w [String], name: &str) -> Option<(&'w str, &'w [String])>
    ensures named { IfSome result (λ found. map string_bytes words.now ≡ name.now ∷ found.0.now ∷ map string_bytes found.1.now) }
    ensures none { IfNone result ((word : List ℕ) (behind : List (List ℕ)) → map string_bytes words.now ≢ name.now ∷ word ∷ behind) }
{
    let (first, behind) = words.split_first()?;
    if first.as_str() != name {
        return None;
    }
    let (word, behind) = behind.split_first()?;
    Some((word.as_str(), behind))
}

/// The user that words name: `--etcd-user NAME --etcd-password-file FILE`. Where there are no words, that is nobody.
fn user_in<'w>(words: &'w [String]) -> Option<Option<UserWords<'w>>>
    ensures named { IfSome result (NameUser (map string_bytes words.now)) }
    ensures none { IfNone result (NameNoUser (map string_bytes words.now)) }
{
    if words.is_empty() {
        return Some(None);
    }
    let (name, behind) = behind_option(words, "--etcd-user")?;
    let (password_file, behind) = behind_option(behind, "--etcd-password-file")?;
    if !behind.is_empty() {
        return None;
    }
    Some(Some(UserWords {
        name,
        password_file,
    }))
}

/// The list that words name: `--etcd URL[,URL..] --prefix NAME`, and maybe a user.
fn list_in<'w>(words: &'w [String]) -> Option<ListWords<'w>>
    ensures named { IfSome result (IsList (map string_bytes words.now)) }
    ensures none { IfNone result (IsNoList (map string_bytes words.now)) }
{
    let (members, behind) = behind_option(words, "--etcd")?;
    let (prefix, behind) = behind_option(behind, "--prefix")?;
    let user = user_in(behind)?;
    Some(ListWords {
        members,
        prefix,
        user,
    })
}

/// The command on a list of which `state` and these words tell.
fn of_state<'w>(words: &'w [String]) -> Option<ListCommand<'w>>
    ensures named { IfSome result (NameState (map string_bytes words.now)) }
    ensures none { IfNone result (NameNoState (map string_bytes words.now)) }
{
    let (first, behind) = words.split_first()?;
    match first.as_str() {
        "--new" => {
            let list = list_in(behind)?;
            Some(ListCommand::New { list })
        }
        "--from" => {
            let (path, behind) = behind.split_first()?;
            let list = list_in(behind)?;
            let path = path.as_str();
            Some(ListCommand::From { path, list })
        }
        "--to" => {
            let (path, behind) = behind.split_first()?;
            let list = list_in(behind)?;
            let path = path.as_str();
            Some(ListCommand::To { path, list })
        }
        _ => {
            let list = list_in(words)?;
            Some(ListCommand::Show { list })
        }
    }
}

impl<'w> ListCommand<'w> {
    /// The command that words name: those behind the program's name.
    pub fn from_words(words: &'w [String]) -> Option<ListCommand<'w>>
        ensures named { IfSome result (NameList (map string_bytes words.now)) }
        ensures none { IfNone result (NameNoList (map string_bytes words.now)) }
    {
        let (name, behind) = words.split_first()?;
        match name.as_str() {
            "state" => of_state(behind),
            "registry" => {
                let (config, behind) = behind.split_first()?;
                let list = list_in(behind)?;
                let config = config.as_str();
                Some(ListCommand::Trial { config, list })
            }
            _ => None,
        }
    }

    /// The list.
    pub fn list(self) -> ListWords<'w>
        ensures { result ≡ list_of self.entry }
    {
        match self {
            ListCommand::Show { list } | ListCommand::New { list } => list,
            ListCommand::From { list, .. } | ListCommand::To { list, .. } => list,
            ListCommand::Trial { list, .. } => list,
        }
    }

    /// The path of the file that is read for it: what is to stand in the list, or a registry.
    pub fn file(self) -> Option<&'w str>
        ensures { option_copied result ≡ file_of_list self.entry }
    {
        match self {
            ListCommand::From { path, .. } => Some(path),
            ListCommand::Trial { config, .. } => Some(config),
            ListCommand::Show { .. } | ListCommand::New { .. } | ListCommand::To { .. } => None,
        }
    }

    /// The path of the file of the user's password, where there is a user.
    pub fn password(self) -> Option<&'w str>
        ensures { option_copied result ≡ password_of_list self.entry }
    {
        match self.list().user {
            Some(user) => Some(user.password_file),
            None => None,
        }
    }
}
