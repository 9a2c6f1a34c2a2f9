//! Why words are not those of `start`.

ghost use Rattle.std.specs.Prelude.{◌≡◌};
ghost use Rattle.start_words.specs.declared.fault.StartFault.TheVariants.{Memory};

use std::alloc::AllocError;
use std::fmt::{self, Display, Formatter};

/// What is wrong with a word.
#[derive(Clone, Copy, Debug, PartialEq, Eq)]
pub enum WordFault {
    /// The address names no port.
    NoPort,
    /// No option has this name.
    Unknown,
    /// The option's value is missing.
    NoValue,
    /// The option's value has another form, or is out of its range.
    BadValue,
    /// The option was given before.
    Twice,
    /// It does not go with `--state`.
    BesideState,
    /// It says something only beside `--etcd`.
    NoEtcd,
    /// The prefix of the list's keys is missing.
    NoPrefix,
    /// The user is missing whose password stands in a file.
    NoUser,
    /// The file of the user's password is missing.
    NoPassword,
}

impl Display for WordFault {
    fn fmt<W: fmt::Write>(&self, f: &mut Formatter<W>) -> fmt::Result {
        match self {
            WordFault::NoPort => write!(f, "wants a port"),
            WordFault::Unknown => write!(f, "is not known"),
            WordFault::NoValue => write!(f, "wants a value"),
            WordFault::BadValue => write!(f, "has a bad value"),
            WordFault::Twice => write!(f, "is given twice"),
            WordFault::BesideState => write!(f, "does not go with --state"),
            WordFault::NoEtcd => write!(f, "wants --etcd"),
            WordFault::NoPrefix => write!(f, "wants --prefix"),
            WordFault::NoUser => write!(f, "wants --etcd-user"),
            WordFault::NoPassword => write!(f, "wants --etcd-password-file"),
        }
    }
}

/// Why words are not those of `start`.
#[derive(Clone, Copy, Debug, PartialEq, Eq)]
pub enum StartFault<'w> {
    /// The address is missing: there is no word, or an option in its place.
    NoAddress,
    /// The registry's file is missing: there is no word behind the address, or an option in its place.
    NoConfig,
    /// What is to be a number by its place is none, or there are too many.
    BadWords,
    /// What is wrong with a word of them: the address, or the name of an option.
    Word { word: &'w str, fault: WordFault },
    /// Memory was refused.
    Memory,
}

impl<'w> From<AllocError> for StartFault<'w> {
    ghost from_gives = { λ _ fault. fault ≡ Memory };

    fn from(_error: AllocError) -> StartFault<'w> {
        StartFault::Memory
    }
}
