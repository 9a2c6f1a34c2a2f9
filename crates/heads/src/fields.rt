//! The fields of a head that count (RFC 9110, section 5).
ghost use Rattle.std.specs.Prelude.{◌≡◌, ◌≤◌, ℕ, List, [], ◌∷◌, ◌++◌, All, codes, length, IfSome, bytes_eq};
ghost use Rattle.httparse.specs.Spans.{IsHeaderWithin};
ghost use Rattle.heads.specs.Limits.{body_size_limit};
ghost use Rattle.heads.specs.Fields.{lowercase, content_length};
ghost use Rattle.heads.specs.PlacesParts.{AreLookups, IsLookup, IsLookupWithin, Looks, LooksOn, FindsFields, FindsPlaceOf, fields_at};
ghost use Rattle.httparse.specs.declared.spans.HeaderSpan.{HeaderSpan};

use crate::content_length::read_body_length;
use httparse::spans::{HeaderSpan, Span};

// What a name finds among the fields: the place of its value.
#[derive(Clone, Copy)]
enum Lookup {
    Absent,
    One(Span),
    Twice,
}

/// The places of the values that count, and the length of the body in bytes.
#[derive(Clone, Copy, Debug)]
pub struct FieldSpans {
    pub authorization: Option<Span>,
    pub content_type: Option<Span>,
    pub owner_key: Option<Span>,
    pub operator_key: Option<Span>,
    /// Content-Length, 0 where it was not sent.
    pub body_length: usize,
}

// What the names find that count.
#[derive(Clone, Copy)]
struct Lookups {
    transfer: Lookup,
    authorization: Lookup,
    content_type: Lookup,
    owner_key: Lookup,
    operator_key: Lookup,
    content_length: Lookup,
}

// No field was looked at.
const NOTHING: Lookups = Lookups {
    transfer: Lookup::Absent,
    authorization: Lookup::Absent,
    content_type: Lookup::Absent,
    owner_key: Lookup::Absent,
    operator_key: Lookup::Absent,
    content_length: Lookup::Absent,
};

// The fields that count. None: some are faulty.
pub(crate) fn read_fields(bytes: &[u8], headers: &[HeaderSpan]) -> Option<FieldSpans>
    requires { All (IsHeaderWithin (length bytes.now)) headers.now }
    ensures { FindsFields bytes.now (fields_at bytes.now headers.now) result }
{
    let found = look_up(bytes, headers);
    let Lookup::Absent = found.transfer else {
        return None;
    };
    let authorization = at_most_once(found.authorization)?;
    let content_type = at_most_once(found.content_type)?;
    let owner_key = at_most_once(found.owner_key)?;
    let operator_key = at_most_once(found.operator_key)?;
    let body_length = length_of_body(bytes, found.content_length)?;
    Some(FieldSpans {
        authorization,
        content_type,
        owner_key,
        operator_key,
        body_length,
    })
}

// The one value of a name, if there is one. None: there are several.
fn at_most_once(found: Lookup) -> Option<Option<Span>>
    ensures { (name bytes : List ℕ) (fields : List (List ℕ × List ℕ)) →
        IsLookup name fields bytes found → IsLookupWithin (length bytes) found → FindsPlaceOf name bytes fields result }
{
    match found {
        Lookup::Absent => Some(None),
        Lookup::One(span) => Some(Some(span)),
        Lookup::Twice => None,
    }
}

// How long the body is by Content-Length. None: it is faulty.
fn length_of_body(bytes: &[u8], found: Lookup) -> Option<usize>
    requires { IsLookupWithin (length bytes.now) found }
    ensures value { (fields : List (List ℕ × List ℕ)) →
        IsLookup (codes "content-length") fields bytes.now found → result ≡ content_length fields }
    ensures small { IfSome result (λ length_read. length_read ≤ body_size_limit) }
{
    match found {
        Lookup::Absent => Some(0),
        Lookup::One(span) => read_body_length(span.of(bytes)),
        Lookup::Twice => None,
    }
}

// What they find among the fields: each field is looked at once.
fn look_up(bytes: &[u8], headers: &[HeaderSpan]) -> Lookups
    requires { All (IsHeaderWithin (length bytes.now)) headers.now }
    ensures { AreLookups bytes.now headers.now result }
{
    let mut found = NOTHING;
    for header in headers {
        note_all(&mut found, bytes, *header);
    }
    found
}

// One more field is looked at.
fn note_all(found: &mut Lookups, bytes: &[u8], header: HeaderSpan)
    requires { IsHeaderWithin (length bytes.now) header }
    ensures { (headers : List HeaderSpan) →
        AreLookups bytes.now headers found.old → AreLookups bytes.now (headers ++ header ∷ []) found.new }
{
    found.transfer = noted(found.transfer, bytes, header, b"transfer-encoding");
    found.authorization = noted(found.authorization, bytes, header, b"authorization");
    found.content_type = noted(found.content_type, bytes, header, b"content-type");
    found.owner_key = noted(found.owner_key, bytes, header, b"x-owner-key");
    found.operator_key = noted(found.operator_key, bytes, header, b"x-operator-key");
    found.content_length = noted(found.content_length, bytes, header, b"content-length");
}

// What a name finds with one field more.
fn noted(found: Lookup, bytes: &[u8], header: HeaderSpan, name: &[u8]) -> Lookup
    requires { IsHeaderWithin (length bytes.now) header }
    ensures { (headers : List HeaderSpan) →
        Looks name.now bytes.now headers found → Looks name.now bytes.now (headers ++ header ∷ []) result }
{
    if is_named(header.name.of(bytes), name) {
        one_more(found, header)
    } else {
        found
    }
}

fn is_named(sent: &[u8], name: &[u8]) -> bool
    ensures { result ≡ bytes_eq (lowercase sent.now) (lowercase name.now) }
{
    sent.eq_ignore_ascii_case(name)
}

fn one_more(found: Lookup, header: HeaderSpan) -> Lookup
    ensures value { LooksOn found header.value result }
    ensures within { (n : ℕ) → IsHeaderWithin n header → IsLookupWithin n result }
{
    match found {
        Lookup::Absent => Lookup::One(header.value),
        Lookup::One(_) | Lookup::Twice => Lookup::Twice,
    }
}
