//! Requests and draws.
ghost use Rattle.std.specs.Prelude.{◌≡◌};
ghost use Rattle.messages.specs.Asked.{asked_of};
ghost use Rattle.messages.specs.Target.{path_of, query_of};
ghost use Rattle.messages.specs.MediaType.{is_form};

use crate::media_type::is_form;
use crate::target::{path, query};

/// A request (RFC 9110, section 6): slices of the bytes that came, with the values of the fields that count, where they
/// were sent.
#[derive(Clone, Copy, Debug)]
pub struct Request<'a> {
    pub method: &'a [u8],
    /// The path and the query, as they were sent (RFC 9112, section 3.2.1).
    pub target: &'a [u8],
    pub body: &'a [u8],
    /// Authorization (RFC 9110, section 11.6.2).
    pub authorization: Option<&'a [u8]>,
    /// Content-Type (RFC 9110, section 8.3).
    pub content_type: Option<&'a [u8]>,
    /// X-Owner-Key: what a resource owner is known by.
    pub owner_key: Option<&'a [u8]>,
    /// X-Operator-Key: what the operator is known by.
    pub operator_key: Option<&'a [u8]>,
}

/// The random bytes of the codes and tokens that one reply may give: those of the first one, and of the second.
#[derive(Clone, Copy, Debug)]
pub struct Draws {
    pub first: [u8; 32],
    pub second: [u8; 32],
}

impl<'a> Request<'a> {
    /// The path of the target: what stands before the first `?`.
    pub fn path(&self) -> &'a [u8]
        ensures { result.now ≡ path_of (asked_of self.now).target }
    {
        path(self.target)
    }

    /// The query of the target: what stands behind the first `?`, empty where there is none.
    pub fn query(&self) -> &'a [u8]
        ensures { result.now ≡ query_of (asked_of self.now).target }
    {
        query(self.target)
    }

    /// Whether the body may be a form: Content-Type says so, or was not sent.
    pub fn is_form(&self) -> bool
        ensures { result ≡ is_form (asked_of self.now).content_type }
    {
        is_form(self.content_type)
    }
}
