//! The names of errors (RFC 6749, sections 4.1.2.1 and 5.2).
ghost use Rattle.std.specs.Prelude.{◌≡◌};
ghost use Rattle.messages.specs.Written.{error_text};

/// An error, by its name in a reply.
#[derive(Clone, Copy, Debug, PartialEq, Eq)]
pub enum ErrorName {
    InvalidRequest,
    InvalidClient,
    InvalidGrant,
    InvalidScope,
    UnauthorizedClient,
    UnsupportedGrantType,
    UnsupportedResponseType,
    AccessDenied,
}

impl ErrorName {
    /// The name as it is sent.
    pub fn text(self) -> &'static str
        ensures { result.now ≡ error_text self }
    {
        match self {
            ErrorName::InvalidRequest => "invalid_request",
            ErrorName::InvalidClient => "invalid_client",
            ErrorName::InvalidGrant => "invalid_grant",
            ErrorName::InvalidScope => "invalid_scope",
            ErrorName::UnauthorizedClient => "unauthorized_client",
            ErrorName::UnsupportedGrantType => "unsupported_grant_type",
            ErrorName::UnsupportedResponseType => "unsupported_response_type",
            ErrorName::AccessDenied => "access_denied",
        }
    }
}
