//! What ends a request before anything is done for it.
ghost use Rattle.std.specs.Prelude.{◌≡◌};
ghost use Rattle.answers.specs.Outcomes.{status_of};

use http::StatusCode;
use messages::ErrorName;

/// An error that is answered, or memory that was refused.
#[derive(Clone, Copy, Debug)]
pub enum Halt {
    Refuse(ErrorName),
    NoMemory,
}

/// The status of an error that is answered as JSON (RFC 6749, section 5.2).
pub fn status_of(error: ErrorName) -> StatusCode
    ensures { result ≡ status_of error }
{
    match error {
        ErrorName::InvalidClient => StatusCode::UNAUTHORIZED,
        ErrorName::AccessDenied => StatusCode::FORBIDDEN,
        ErrorName::InvalidRequest
        | ErrorName::InvalidGrant
        | ErrorName::InvalidScope
        | ErrorName::UnauthorizedClient
        | ErrorName::UnsupportedGrantType
        | ErrorName::UnsupportedResponseType => StatusCode::BAD_REQUEST,
    }
}
