//! Of which requests it is to be told.
ghost use Rattle.std.specs.Prelude.{◌≡◌};
ghost use Rattle.telling.specs.Interests.{wanted_of};
ghost use Rattle.telling.specs.Sought.{asks_for_tokens, is_sought};

use crate::told::Told;
use answers::Endpoint;
use messages::ErrorName;

/// Of which requests it is to be told.
#[derive(Clone, Copy, Debug, PartialEq, Eq)]
pub enum Interest {
    /// Of none.
    Nothing,
    /// Of those that a hook denied.
    Denials,
    /// Of each that is answered.
    Everything,
}

// Whether hooks may have been asked there.
fn asks_for_tokens(endpoint: Endpoint) -> bool
    ensures { result ≡ asks_for_tokens endpoint }
{
    match endpoint {
        Endpoint::IssueToken => true,
        _ => false,
    }
}

impl Interest {
    /// Whether it is looked for what a request shows: of a denial it is only where a request for tokens is refused.
    pub(crate) fn is_sought(self, endpoint: Endpoint, error: Option<ErrorName>) -> bool
        ensures { result ≡ is_sought self endpoint error }
    {
        match self {
            Interest::Nothing => false,
            Interest::Denials => asks_for_tokens(endpoint) && error.is_some(),
            Interest::Everything => true,
        }
    }

    /// What is told, where it is wanted.
    pub(crate) fn wanted_of(self, told: Told) -> Option<Told>
        ensures { result ≡ wanted_of self told }
    {
        match self {
            Interest::Nothing => None,
            Interest::Denials if !told.is_denial() => None,
            _ => Some(told),
        }
    }
}
