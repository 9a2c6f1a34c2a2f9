//! The options, and what their values say.

ghost use Rattle.std.specs.Prelude.{◌≡◌, option_map};
ghost use Rattle.std.specs.Option.{option_copied};
ghost use Rattle.start_words.specs.Options.{above_0, above_1, clock_limit, flag_named, hook_in, hook_said, option_named, path_in};

use crate::number::number_said;
use insn::layout::Layout;

/// The file of a program that is installed as a hook.
#[derive(Clone, Copy, Debug)]
pub struct HookFile<'w> {
    /// The hook's name.
    pub name: &'w str,
    /// The layout of the record that it reads.
    pub layout: Layout,
    /// The path of the file.
    pub path: &'w str,
}

/// What comes of a clock that is far ahead of the moment that a state has.
#[derive(Clone, Copy, Debug, PartialEq, Eq)]
pub enum FarClock {
    /// The start is refused.
    Refused,
    /// It is taken as it is.
    Accepted,
}

/// A clock that is more seconds ahead of a state is far ahead: those of a year.
const YEAR: u64 = 31_536_000;

impl FarClock {
    /// By how many seconds a clock may be ahead of a state, where that is limited.
    pub(crate) fn limit(self) -> Option<u64>
        ensures { result ≡ clock_limit self }
    {
        match self {
            FarClock::Refused => Some(YEAR),
            FarClock::Accepted => None,
        }
    }
}

/// What who waits to lead tells those who come.
#[derive(Clone, Copy, Debug, PartialEq, Eq)]
pub enum Waiting {
    /// It does not listen.
    Deaf,
    /// It answers that it does not serve.
    Answers,
}

/// An option that has no value.
#[derive(Clone, Copy, Debug)]
pub enum FlagName {
    /// `--accept-clock`.
    AcceptClock,
    /// `--standby-answers`.
    StandbyAnswers,
}

/// An option that says something of a list in etcd.
#[derive(Clone, Copy, Debug)]
pub enum ListOption {
    /// `--etcd URL[,URL..]`.
    Etcd,
    /// `--prefix NAME`.
    Prefix,
    /// `--etcd-user NAME`.
    User,
    /// `--etcd-password-file FILE`.
    Password,
    /// `--lease SECONDS`.
    Lease,
}

/// An option that has a value.
#[derive(Clone, Copy, Debug)]
pub enum OptionName {
    /// `--silence SECONDS`.
    Silence,
    /// `--full SECONDS`.
    Full,
    /// `--report SECONDS`.
    Report,
    /// `--audit FILE`.
    Audit,
    /// `--state FILE`.
    State,
    /// One that says something of a list in etcd.
    List(ListOption),
    /// `--hook NAME=FILE`, and `--hook2 NAME=FILE` for a hook that reads records of version 2.
    Hook(Layout),
}

/// The option of a name.
pub fn option_named(word: &str) -> Option<OptionName>
    ensures { result ≡ option_named word.now }
{
    match word {
        "--silence" => Some(OptionName::Silence),
        "--full" => Some(OptionName::Full),
        "--report" => Some(OptionName::Report),
        "--audit" => Some(OptionName::Audit),
        "--state" => Some(OptionName::State),
        "--etcd" => Some(OptionName::List(ListOption::Etcd)),
        "--prefix" => Some(OptionName::List(ListOption::Prefix)),
        "--etcd-user" => Some(OptionName::List(ListOption::User)),
        "--etcd-password-file" => Some(OptionName::List(ListOption::Password)),
        "--lease" => Some(OptionName::List(ListOption::Lease)),
        "--hook" => Some(OptionName::Hook(Layout::V1)),
        "--hook2" => Some(OptionName::Hook(Layout::V2)),
        _ => None,
    }
}

/// The option of a name that has no value.
pub fn flag_named(word: &str) -> Option<FlagName>
    ensures { result ≡ flag_named word.now }
{
    match word {
        "--accept-clock" => Some(FlagName::AcceptClock),
        "--standby-answers" => Some(FlagName::StandbyAnswers),
        _ => None,
    }
}

/// The number, of seconds, that a text says, where it is not 0.
pub fn above_0(text: &str) -> Option<u32>
    ensures { result ≡ above_0 text.now }
{
    match number_said(text) {
        Some(0) | None => None,
        Some(seconds) => Some(seconds),
    }
}

/// The number, of seconds, that a text says, where it is 2 at least.
pub fn above_1(text: &str) -> Option<u32>
    ensures { result ≡ above_1 text.now }
{
    match number_said(text) {
        Some(0 | 1) | None => None,
        Some(seconds) => Some(seconds),
    }
}

/// The path that a text says, where it is not empty.
pub fn path_in<'w>(text: &'w str) -> Option<&'w str>
    ensures { option_copied result ≡ path_in text.now }
{
    if text.is_empty() { None } else { Some(text) }
}

/// The name and the file that NAME=FILE says. The name ends at the first equals sign.
pub fn hook_in<'w>(layout: Layout, text: &'w str) -> Option<HookFile<'w>>
    ensures { option_map hook_said result ≡ hook_in layout text.now }
{
    let (name, path) = text.split_once('=')?;
    Some(HookFile { name, layout, path })
}
