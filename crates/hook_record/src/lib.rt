//! The record that a token hook reads and writes, and how its answer narrows a grant.
//!
//! A record tells a hook what a client asks for. The hook may write the scope mask and the lifetime in it, and ends with
//! 1 in R0 to allow the grant. Whatever it wrote, the grant keeps at most the scopes and the lifetime that it had.
#![tactic(auto)]

mod encoding;
mod narrowing;
mod numbers;

pub use encoding::{read, read_v2, write, write_v2};
pub use narrowing::{meet, narrow, narrowing_never_widens};

/// The kind of a grant (RFC 6749, sections 4.1, 4.4 and 6).
#[derive(Clone, Copy, Debug, PartialEq, Eq)]
pub enum Kind {
    /// An authorization code is exchanged.
    Code,
    /// A refresh token is used.
    Refresh,
    /// A client acts for itself.
    ClientCredentials,
}

/// What a hook is asked: whether this grant may be made, and how much of it.
#[derive(Clone, Copy, Debug, PartialEq, Eq)]
pub struct Ask {
    pub kind: Kind,
    /// The effective moment, in seconds.
    pub now: u64,
    /// The client's number, from 1.
    pub client: u64,
    /// The owner's number, from 1; 0 where there is none.
    pub owner: u64,
    /// The mask of the scopes that were asked for.
    pub asked: u64,
    /// The mask of the scopes that the grant would have.
    pub scope: u64,
    /// The lifetime that the access token would have, in seconds.
    pub life: u32,
    /// The mask of the scopes that the client may have.
    pub allowed: u64,
    /// The mask of the scopes that the owner consented to; 0 without an owner, and in a record of version 1.
    pub consented: u64,
    /// The longest lifetime of an access token, in seconds; 0 in a record of version 1.
    pub access_limit: u32,
    /// The longest lifetime of a refresh token, in seconds; 0 in a record of version 1.
    pub refresh_limit: u32,
}

/// What is left of a grant.
#[derive(Clone, Copy, Debug, PartialEq, Eq)]
pub enum Narrowed {
    /// The grant may be made, with this scope mask and this lifetime in seconds.
    Allowed { scope: u64, life: u32 },
    /// The grant may not be made.
    Denied,
    /// The grant would have no scope.
    EmptyScope,
}
