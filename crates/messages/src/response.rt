//! Replies.

use crate::bytes::put_reply;
use http::StatusCode;
use std::marker::Model;

/// What a reply has beside its status.
#[derive(Drop)]
pub(crate) enum Content {
    Nothing,
    /// Where it sends the user agent.
    Location(String),
    /// Its body, a JSON text.
    Text(Vec<u8>),
}

/// A reply: its status, and where it sends the user agent or its body, if it has one of them.
#[derive(Drop)]
pub struct Response {
    status: StatusCode,
    content: Content,
}

impl Model for Response {
    ghost use Rattle.messages.specs.Written.{Written};

    ghost Value = { Written };

    ghost use Rattle.messages.specs.Contents.{location_in, text_in};

    ghost view = { λ r. record { status = r.status; location = location_in r.content; body = text_in r.content } };
}

ghost use Rattle.std.specs.Prelude.{◌≡◌, ◌≤◌, ◌+◌, ◌++◌, None, Some, length, option_copied, string_bytes, vec_len, vec_capacity};
ghost use Rattle.messages.specs.Reply.{plain};
ghost use Rattle.messages.specs.Reply.Body.{Empty};
ghost use Rattle.messages.specs.Written.{in_writing, reply_bytes};

impl Response {
    /// A status and nothing else.
    pub fn bare(status: StatusCode) -> Response
        ensures { result ≡ in_writing (plain status Empty) }
    {
        Response {
            status,
            content: Content::Nothing,
        }
    }

    // A status and a JSON text.
    pub(crate) fn with_body(status: StatusCode, body: Vec<u8>) -> Response
        ensures { result ≡ record { status = status; location = None; body = Some body.items } }
    {
        Response {
            status,
            content: Content::Text(body),
        }
    }

    // The user agent is sent there.
    pub(crate) fn found(location: String) -> Response
        ensures { result ≡ record { status = 302; location = Some (string_bytes location); body = None } }
    {
        Response {
            status: StatusCode::FOUND,
            content: Content::Location(location),
        }
    }

    /// The status code.
    pub fn status(&self) -> StatusCode
        ensures { result ≡ self.now.status }
    {
        self.status
    }

    /// The value of Location.
    pub fn location(&self) -> Option<&str>
        ensures { option_copied result ≡ self.now.location }
    {
        match &self.content {
            Content::Location(location) => Some(location.as_str()),
            Content::Nothing | Content::Text(_) => None,
        }
    }

    /// The JSON text.
    pub fn body(&self) -> Option<&[u8]>
        ensures { option_copied result ≡ self.now.body }
    {
        match &self.content {
            Content::Text(text) => Some(text.as_slice()),
            Content::Nothing | Content::Location(_) => None,
        }
    }

    /// Appends the reply's bytes (RFC 9112, section 4), where room was made for them.
    pub fn push(&self, out: &mut Vec<u8>)
        requires { vec_len out.old + length (reply_bytes self.now) ≤ vec_capacity out.old }
        ensures items { out.new.items ≡ out.old.items ++ reply_bytes self.now }
        ensures room { vec_capacity out.old ≤ vec_capacity out.new }
    {
        put_reply(out, self.status, self.location(), self.body());
    }
}
