//! What is told of a token that is live (RFC 7662, section 2.2).

use consent::TokenKind;

/// A live token: the client that it was issued to, the seconds at which it was issued and expires, its scope, what its
/// owner is called, if anything, and its kind.
#[derive(Clone, Copy)]
pub struct ActiveToken<'a> {
    pub client: &'a str,
    pub issued: u64,
    pub expires: u64,
    pub scope: &'a str,
    pub sub: Option<&'a str>,
    pub kind: TokenKind,
}
