//! The bytes of replies (RFC 9112, section 4). Room is made for them before, so that memory is not refused.
ghost use Rattle.std.specs.Prelude.{◌≡◌, ◌≤◌, ◌+◌, ◌++◌, length, vec_len, vec_capacity, decimal, codes, unwrap_or, option_copied};
ghost use Rattle.http.specs.StatusCode.{reason_phrase};
ghost use Rattle.messages.specs.Written.{is_bare, status_line, type_line, cache_lines, location_line, challenge_line, length_line, crlf, reply_bytes, faulty_bytes};

use http::StatusCode;

/// Appends the answer to a head that is none, where room was made for it.
pub fn push_faulty(out: &mut Vec<u8>)
    requires { vec_len out.old + length faulty_bytes ≤ vec_capacity out.old }
    ensures items { out.new.items ≡ out.old.items ++ faulty_bytes }
    ensures room { vec_capacity out.old ≤ vec_capacity out.new }
{
    put(
        out,
        b"HTTP/1.1 400 Bad Request\r\nContent-Length: 0\r\nConnection: close\r\n\r\n",
    );
}

// Appends where room was made.
fn put(out: &mut Vec<u8>, bytes: &[u8])
    requires { vec_len out.old + length bytes.now ≤ vec_capacity out.old }
    ensures items { out.new.items ≡ out.old.items ++ bytes.now }
    ensures room { vec_capacity out.old ≤ vec_capacity out.new }
{
    let Ok(()) = out.extend_from_slice(bytes) else {
        unreachable!();
    };
}

fn put_number(out: &mut Vec<u8>, n: u64)
    requires { vec_len out.old + length (decimal n) ≤ vec_capacity out.old }
    ensures items { out.new.items ≡ out.old.items ++ decimal n }
    ensures room { vec_capacity out.old ≤ vec_capacity out.new }
{
    let mut digits = itoa::Buffer::new();
    put(out, digits.format(n).as_bytes());
}

fn phrase(status: StatusCode) -> &'static str
    ensures { result.now ≡ unwrap_or (reason_phrase status) (codes "<unknown status code>") }
{
    status.canonical_reason().unwrap_or("<unknown status code>")
}

fn put_status(out: &mut Vec<u8>, status: StatusCode)
    requires { vec_len out.old + length (status_line status) ≤ vec_capacity out.old }
    ensures items { out.new.items ≡ out.old.items ++ status_line status }
    ensures room { vec_capacity out.old ≤ vec_capacity out.new }
{
    put(out, b"HTTP/1.1 ");
    put_number(out, u64::from(status.as_u16()));
    put(out, b" ");
    put(out, phrase(status).as_bytes());
    put(out, b"\r\n");
}

fn put_type(out: &mut Vec<u8>, body: Option<&[u8]>)
    requires { vec_len out.old + length (type_line (option_copied body)) ≤ vec_capacity out.old }
    ensures items { out.new.items ≡ out.old.items ++ type_line (option_copied body.entry) }
    ensures room { vec_capacity out.old ≤ vec_capacity out.new }
{
    if body.is_some() {
        put(out, b"Content-Type: application/json\r\n");
    }
}

// Whether a reply of the status says nothing else.
fn is_bare(status: StatusCode) -> bool
    ensures { result ≡ is_bare status }
{
    matches!(status.as_u16(), 404 | 405 | 503)
}

fn put_cache(out: &mut Vec<u8>, status: StatusCode)
    requires { vec_len out.old + length (cache_lines status) ≤ vec_capacity out.old }
    ensures items { out.new.items ≡ out.old.items ++ cache_lines status }
    ensures room { vec_capacity out.old ≤ vec_capacity out.new }
{
    if !is_bare(status) {
        put(out, b"Cache-Control: no-store\r\nPragma: no-cache\r\n");
    }
}

fn put_location(out: &mut Vec<u8>, location: Option<&str>)
    requires { vec_len out.old + length (location_line (option_copied location)) ≤ vec_capacity out.old }
    ensures items { out.new.items ≡ out.old.items ++ location_line (option_copied location.entry) }
    ensures room { vec_capacity out.old ≤ vec_capacity out.new }
{
    if let Some(text) = location {
        put(out, b"Location: ");
        put(out, text.as_bytes());
        put(out, b"\r\n");
    }
}

fn put_challenge(out: &mut Vec<u8>, status: StatusCode)
    requires { vec_len out.old + length (challenge_line status) ≤ vec_capacity out.old }
    ensures items { out.new.items ≡ out.old.items ++ challenge_line status }
    ensures room { vec_capacity out.old ≤ vec_capacity out.new }
{
    if status.as_u16() == 401 {
        put(out, b"WWW-Authenticate: Basic realm=\"oauthd\"\r\n");
    }
}

// The lines of a status and of what the body is.
fn put_opening(out: &mut Vec<u8>, status: StatusCode, body: Option<&[u8]>)
    requires { vec_len out.old + length (status_line status ++ type_line (option_copied body) ++ cache_lines status) ≤ vec_capacity out.old }
    ensures items { out.new.items ≡ out.old.items ++ status_line status ++ type_line (option_copied body.entry) ++ cache_lines status }
    ensures room { vec_capacity out.old ≤ vec_capacity out.new }
{
    put_status(out, status);
    put_type(out, body);
    put_cache(out, status);
}

// The lines that say where to go and how to authenticate.
fn put_guide(out: &mut Vec<u8>, location: Option<&str>, status: StatusCode)
    requires { vec_len out.old + length (location_line (option_copied location) ++ challenge_line status) ≤ vec_capacity out.old }
    ensures items { out.new.items ≡ out.old.items ++ location_line (option_copied location.entry) ++ challenge_line status }
    ensures room { vec_capacity out.old ≤ vec_capacity out.new }
{
    put_location(out, location);
    put_challenge(out, status);
}

// The length of a body, the end of the head, and the body.
fn put_content(out: &mut Vec<u8>, body: &[u8])
    requires { vec_len out.old + length (length_line (length body.now) ++ crlf ++ body.now) ≤ vec_capacity out.old }
    ensures items { out.new.items ≡ out.old.items ++ length_line (length body.now) ++ crlf ++ body.now }
    ensures room { vec_capacity out.old ≤ vec_capacity out.new }
{
    put(out, b"Content-Length: ");
    put_number(out, body.len() as u64);
    put(out, b"\r\n\r\n");
    put(out, body);
}

// A whole reply.
pub(crate) fn put_reply(
    out: &mut Vec<u8>,
    status: StatusCode,
    location: Option<&str>,
    body: Option<&[u8]>,
)
    requires { vec_len out.old + length (reply_bytes (record { status = status; location = option_copied location; body = option_copied body })) ≤ vec_capacity out.old }
    ensures items { out.new.items ≡ out.old.items ++ reply_bytes (record { status = status; location = option_copied location.entry; body = option_copied body.entry }) }
    ensures room { vec_capacity out.old ≤ vec_capacity out.new }
{
    put_opening(out, status, body);
    put_guide(out, location, status);
    put_content(out, body.unwrap_or(b""));
}
