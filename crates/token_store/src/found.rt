//! What the store answers of a code or token.

use consent::{ClientNo, Kind, Moment, OwnerNo, ScopeSet};

/// A code or token that has not expired. The texts are a code's until it is used, and else empty.
#[derive(Clone, Copy)]
pub struct Found<'a> {
    pub kind: Kind,
    /// The number of its family.
    pub family: u64,
    pub client: ClientNo,
    /// `None` where it is the client's own.
    pub owner: Option<OwnerNo>,
    pub scope: ScopeSet,
    /// When it was given.
    pub moment: Moment,
    /// For how many seconds from then on it is good.
    pub life: u32,
    /// The redirect URI that the code was sent to (RFC 6749, section 4.1.3).
    pub redirect: &'a str,
    /// The code challenge (RFC 7636, section 4.2).
    pub challenge: &'a str,
    /// It was used.
    pub spent: bool,
    /// Its family has ended.
    pub ended: bool,
}

/// What the codes and tokens of a family share, one of which has not expired.
#[derive(Clone, Copy)]
pub struct Family {
    pub client: ClientNo,
    /// `None` where it is the client's own.
    pub owner: Option<OwnerNo>,
    /// The scope of the family's code, if one opened it.
    pub code_scope: Option<ScopeSet>,
    pub ended: bool,
}
