//! Replies as values, before they are written.

use crate::want::Want;
use consent::{ClientNo, OwnerNo, ScopeSet, TokenKind};
use hook_host::HookFault;
use messages::{Draws, ErrorName};

/// What is answered. A life is in seconds.
#[derive(Clone, Copy)]
pub enum Answer<'a> {
    /// 200 and nothing else.
    Done,
    /// RFC 6749, section 5.2.
    Failure(ErrorName),
    /// The same, where a hook denied the grant.
    Denied(ErrorName),
    /// 503: that is wanting.
    Unavailable(Want),
    /// An access token (RFC 6749, section 5.1).
    Access {
        draw: [u8; 32],
        scope: ScopeSet,
        life: u32,
    },
    /// And a refresh token, of the second draw.
    Both {
        draws: Draws,
        scope: ScopeSet,
        life: u32,
    },
    /// What an owner consents to.
    Consented {
        mask: ScopeSet,
    },
    /// The user agent is sent back with a code (RFC 6749, section 4.1.2).
    CodeSent {
        uri: &'a str,
        draw: [u8; 32],
        state: Option<&'a str>,
    },
    /// Or with an error (RFC 6749, section 4.1.2.1).
    TurnedBack {
        uri: &'a str,
        error: ErrorName,
        state: Option<&'a str>,
    },
    /// What is told of a live token (RFC 7662, section 2.2): when it was issued and expires is in seconds.
    Active {
        client: ClientNo,
        issued: u64,
        expires: u64,
        scope: ScopeSet,
        /// `None` where it is the client's own.
        owner: Option<OwnerNo>,
        kind: TokenKind,
    },
    /// Or of what is none.
    Inactive,
    /// The hook of the name was installed or removed.
    HookDone {
        name: &'a str,
    },
    /// Or it was not.
    HookRefused(HookFault),
    /// The names of the host's hooks.
    Hooks,
    /// An owner left: so many of its families ended, and so many consents.
    Ended {
        families: usize,
        consents: u32,
    },
}
