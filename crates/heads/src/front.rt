//! The request at the front of the bytes.
ghost use Rattle.std.specs.Prelude.{◌≡◌, ◌≤◌, length};
ghost use Rattle.std.specs.Option.{option_copied};
ghost use Rattle.httparse.specs.Grammar.{HasNoRequest, MayBecomeRequest};
ghost use Rattle.httparse.specs.Spans.{IsRequestOf, IsRequestWithin};
ghost use Rattle.messages.specs.Asked.{asked_of};
ghost use Rattle.heads.specs.Limits.{field_line_limit};
ghost use Rattle.heads.specs.Message.{Message, asked_of_message};
ghost use Rattle.heads.specs.Places.{IsOptionWithin, bytes_at_place};
ghost use Rattle.heads.specs.Front.{IsFront, IsFoundWithin, IsWholeAt};

use crate::fields::{FieldSpans, read_fields};
use crate::limits::{FIELD_LINE_LIMIT, HEAD_SIZE_LIMIT};
use crate::waits::Waits;
use httparse::Status;
use httparse::spans::{EMPTY_HEADER_SPAN, HeaderSpan, RequestSpans, Span, parse_request};
use messages::Request;

// HTTP/1.1.
const MINOR_VERSION: u8 = 1;

/// Where the parts of a whole request lie, and where it ends.
#[derive(Clone, Copy, Debug)]
pub struct Found {
    pub head: RequestSpans,
    pub fields: FieldSpans,
    /// Where the body ends, and so the request.
    pub end: usize,
}

/// What stands at the front of the bytes.
#[derive(Clone, Copy, Debug)]
pub enum Front {
    /// A whole request.
    Whole(Found),
    /// No request yet, nor while it still waits. So its head need not be read again for each piece of a line or of the
    /// body.
    More { waits: Waits },
    /// No request, whatever follows.
    Faulty,
}

/// Reads what stands at the front of the bytes (RFC 9112, section 2.2).
pub fn read_front(bytes: &[u8]) -> Front
    ensures { IsFront bytes.now result }
{
    let mut headers = [EMPTY_HEADER_SPAN; FIELD_LINE_LIMIT];
    match parse_request(bytes, &mut headers) {
        Ok(Status::Complete(head)) => after_head(bytes, &headers, head),
        Ok(Status::Partial) => without_head(bytes),
        Err(_) => Front::Faulty,
    }
}

/// What stands at the front of the bytes behind so many requests, where the front of the first was read before.
pub fn front_of(bytes: &[u8], index: usize, first: Front) -> Front
    requires { index ≡ 0 → IsFront bytes.now first }
    ensures { IsFront bytes.now result }
{
    if index == 0 {
        return first;
    }
    if bytes.is_empty() {
        return Front::More {
            waits: Waits::ForBytes(1),
        };
    }
    read_front(bytes)
}

/// The request whose places were found: slices of the bytes.
pub fn lend<'a>(bytes: &'a [u8], found: &Found) -> Request<'a>
    requires { IsFoundWithin bytes.now found.now }
    ensures { (m : Message) → IsWholeAt bytes.now found.now m → asked_of result ≡ asked_of_message m }
{
    Request {
        method: found.head.method.of(bytes),
        target: found.head.path.of(bytes),
        body: &bytes[found.head.len..found.end],
        authorization: value_at(bytes, found.fields.authorization),
        content_type: value_at(bytes, found.fields.content_type),
        owner_key: value_at(bytes, found.fields.owner_key),
        operator_key: value_at(bytes, found.fields.operator_key),
    }
}

// What stands behind a whole head.
fn after_head(bytes: &[u8], headers: &[HeaderSpan], head: RequestSpans) -> Front
    requires room { length headers.now ≤ field_line_limit }
    requires within { IsRequestWithin bytes.now headers.now head }
    requires head { IsRequestOf bytes.now headers.now head }
    ensures { IsFront bytes.now result }
{
    if head.version != MINOR_VERSION {
        return Front::Faulty;
    }
    if head.len > HEAD_SIZE_LIMIT {
        return Front::Faulty;
    }
    let Some(fields) = read_fields(bytes, &headers[..head.headers]) else {
        return Front::Faulty;
    };
    let end = head.len + fields.body_length;
    if end > bytes.len() {
        return Front::More {
            waits: Waits::ForBytes(end),
        };
    }
    Front::Whole(Found { head, fields, end })
}

// What stands there where a head has begun: a part of it, and perhaps too much for a head.
fn without_head(bytes: &[u8]) -> Front
    requires none { HasNoRequest bytes.now }
    requires unfinished { MayBecomeRequest bytes.now }
    ensures { IsFront bytes.now result }
{
    if bytes.len() < HEAD_SIZE_LIMIT {
        Front::More {
            waits: Waits::ForLine,
        }
    } else {
        Front::Faulty
    }
}

fn value_at<'a>(bytes: &'a [u8], place: Option<Span>) -> Option<&'a [u8]>
    requires { IsOptionWithin (length bytes.now) place }
    ensures { option_copied result ≡ bytes_at_place bytes.now place }
{
    match place {
        Some(span) => Some(span.of(bytes)),
        None => None,
    }
}
