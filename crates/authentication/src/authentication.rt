//! Client authentication by HTTP Basic or by parameters (RFC 6749, section 2.3.1; RFC 7617).

ghost use Rattle.std.specs.Prelude.{◌≡◌, ◌≤◌, length, ◌==◌, ◌&&◌, true, false, not, nat_lt, drop, bytes_eq, if◌then◌else◌, string_bytes, option_copied, IfOk, IfErr, Ok, Err, None, Some};
ghost use Rattle.std.specs.Cow.{cow_str_bytes};
ghost use Rattle.std.specs.List.{list_all};
ghost use Rattle.std.specs.Option.{ok_or, option_map_or};
ghost use Rattle.std.specs.Str.{is_utf8};
ghost use Rattle.registry_json.specs.Faults.{GivesUnless};
ghost use Rattle.registry_json.specs.FaultsParts.{seen_by};
ghost use Rattle.clients.specs.Numbers.{number_among};
ghost use Rattle.clients.specs.Clients.{ids};
ghost use Rattle.authentication.specs.Authentication.{is_basic, base64_bytes, basic_text, around_colon, form_text, credentials_in, is_secret_of, identified, authenticated, Authenticates, IsSender};
ghost use Rattle.authentication.specs.declared.authentication.AuthFault.TheVariants.{Memory};

use base64::DecodeAllocError;
use base64::engine::general_purpose::STANDARD;
use clients::Registry;
use consent::ClientNo;
use form_urlencoded::decode;
use params::{Params, has_replacement};
use std::alloc::{AllocError, Global};
use std::borrow::CowStr;
use std::error::Error;
use std::fmt;

/// Why a request authenticates no client.
#[derive(Clone, Copy, Debug, PartialEq, Eq, Hash)]
pub enum AuthFault {
    /// No client has the identifier, or no credentials were sent.
    NoClient,
    /// The client has another secret.
    BadSecret,
    /// A header and a parameter beside it that names a secret or another client (RFC 6749, section 2.3).
    TwoMethods,
    /// The header is no Basic credentials.
    BadHeader,
    /// Memory was refused.
    Memory,
}

impl fmt::Display for AuthFault {
    fn fmt<W: fmt::Write>(&self, f: &mut fmt::Formatter<W>) -> fmt::Result {
        write!(f, "{self:?}")
    }
}

impl Error for AuthFault {}

impl From<AllocError> for AuthFault {
    ghost from_gives = { λ _ fault. fault ≡ Memory };

    fn from(_refused: AllocError) -> AuthFault {
        AuthFault::Memory
    }
}

// What follows `Basic` and one space.
fn after_scheme(header: &[u8]) -> Result<&[u8], AuthFault>
    ensures ok { IfOk result (λ rest. (is_basic header.now ≡ true) × (rest.now ≡ drop 6 header.now)) }
    ensures err { IfErr result (λ fault. (is_basic header.now ≡ false) × (fault ≡ AuthFault.BadHeader)) }
{
    match header.split_at_checked(6) {
        Some((scheme, rest)) if scheme.eq_ignore_ascii_case(b"basic ") => Ok(rest),
        _ => Err(AuthFault::BadHeader),
    }
}

// The bytes of strict padded base64 (RFC 4648, section 4).
fn base64_bytes(alloc: Global, encoded: &[u8]) -> Result<Vec<u8>, AuthFault>
    ensures { GivesUnless AuthFault.Memory Unit (seen_by (λ v. v.items) result) (base64_bytes encoded.now) }
{
    match STANDARD.decode(alloc, encoded) {
        Ok(bytes) => Ok(bytes),
        Err(DecodeAllocError::OutOfMemory) => Err(AuthFault::Memory),
        Err(DecodeAllocError::DecodeError(_)) => Err(AuthFault::BadHeader),
    }
}

// The bytes as text.
#[tactic(auto, using(crate::proofs::Texts::text_where, crate::proofs::Texts::no_text_where))]
fn utf8_text(bytes: Vec<u8>) -> Result<String, AuthFault>
    ensures { seen_by string_bytes result ≡ (if is_utf8 bytes.items then Ok bytes.items else Err AuthFault.BadHeader) }
{
    match String::from_utf8(bytes) {
        Ok(text) => Ok(text),
        Err(_) => Err(AuthFault::BadHeader),
    }
}

// The text whose base64 follows the scheme.
fn basic_text(alloc: Global, header: &[u8]) -> Result<String, AuthFault>
    ensures { GivesUnless AuthFault.Memory (is_basic header.now ≡ true) (seen_by string_bytes result) (basic_text header.now) }
{
    let encoded = after_scheme(header)?;
    utf8_text(base64_bytes(alloc, encoded)?)
}

// The texts on the two sides of the first colon.
fn around_colon(text: &str) -> Result<(&str, &str), AuthFault>
    ensures { seen_by (λ p. (p.0.now, p.1.now)) result ≡ around_colon text.now }
{
    text.split_once(':').ok_or(AuthFault::BadHeader)
}

// Whether the text stands for itself in a form: it is ASCII, and has neither `+` nor `%`.
fn is_plain(text: &[u8]) -> bool
    ensures { result ≡ list_all (λ b. nat_lt b 128 && not (b == 43) && not (b == 37)) text.now }
{
    text.iter()
        .all(|byte| *byte < 128 && *byte != b'+' && *byte != b'%')
}

// The text that was form-encoded (RFC 6749, appendix B): where it stands as it is, it is no copy.
#[tactic(auto, using(crate::proofs::Plain::same_text))]
fn form_text(alloc: Global, encoded: &str) -> Result<CowStr<'_>, AuthFault>
    ensures { GivesUnless AuthFault.Memory Unit (seen_by cow_str_bytes result) (form_text encoded.now) }
{
    if is_plain(encoded.as_bytes()) {
        return Ok(CowStr::Borrowed(encoded));
    }
    let text = decode(alloc, encoded.as_bytes())?;
    if has_replacement(&text) {
        return Err(AuthFault::BadHeader);
    }
    Ok(text)
}

// What a Basic header says of a client.
#[derive(Drop)]
struct Credentials<'a> {
    id: CowStr<'a>,
    secret: CowStr<'a>,
}

// The identifier and the secret of a Basic header's text.
fn read_credentials(alloc: Global, text: &str) -> Result<Credentials<'_>, AuthFault>
    ensures { GivesUnless AuthFault.Memory Unit (seen_by (λ c. (cow_str_bytes c.id, cow_str_bytes c.secret)) result) (credentials_in text.now) }
{
    let (id, secret) = around_colon(text)?;
    Ok(Credentials {
        id: form_text(alloc, id)?,
        secret: form_text(alloc, secret)?,
    })
}

// The number, if the client has this secret.
fn with_secret(registry: &Registry, number: ClientNo, secret: &str) -> Result<ClientNo, AuthFault>
    ensures { result ≡ (if is_secret_of number registry.now.clients secret.now then Ok number else Err AuthFault.BadSecret) }
{
    match registry.client_numbered(number) {
        Some(client) if client.has_secret(secret) => Ok(number),
        _ => Err(AuthFault::BadSecret),
    }
}

// The number of the client with this identifier.
fn known(registry: &Registry, id: &str) -> Result<ClientNo, AuthFault>
    ensures { result ≡ ok_or (number_among id.now (ids registry.now.clients)) AuthFault.NoClient }
{
    registry.client_no(id).ok_or(AuthFault::NoClient)
}

fn is_another(named: Option<&str>, id: &str) -> bool
    ensures { result ≡ option_map_or (λ other. not (bytes_eq other id.now)) (option_copied named.entry) false }
{
    named.is_some_and(|other| other != id)
}

// The client of an identifier and a secret, unless another client is named beside them.
fn identified(
    registry: &Registry,
    named: Option<&str>,
    id: &str,
    secret: &str,
) -> Result<ClientNo, AuthFault>
    ensures { result ≡ identified registry.now.clients (option_copied named.entry) id.now secret.now }
{
    let number = known(registry, id)?;
    if is_another(named, id) {
        return Err(AuthFault::TwoMethods);
    }
    with_secret(registry, number, secret)
}

// The client that a header and the parameters beside it authenticate.
fn by_header(
    alloc: Global,
    registry: &Registry,
    params: &Params<'_>,
    header: &[u8],
) -> Result<ClientNo, AuthFault>
    ensures { Authenticates registry.now.clients (Some header.now) params.now result }
{
    if params.get("client_secret").is_some() {
        return Err(AuthFault::TwoMethods);
    }
    let named = params.get("client_id");
    let text = basic_text(alloc, header)?;
    let sent = read_credentials(alloc, &text)?;
    identified(registry, named, &sent.id, &sent.secret)
}

// The client that the parameters authenticate.
fn by_parameters(registry: &Registry, params: &Params<'_>) -> Result<ClientNo, AuthFault>
    ensures { result ≡ authenticated registry.now.clients None params.now }
{
    let id = params.get("client_id").ok_or(AuthFault::NoClient)?;
    let secret = params.get("client_secret").ok_or(AuthFault::NoClient)?;
    identified(registry, None, id, secret)
}

// The client that a request authenticates, by its Authorization header or, without one, by its parameters.
fn by_header_or_parameters(
    alloc: Global,
    registry: &Registry,
    header: Option<&[u8]>,
    params: &Params<'_>,
) -> Result<ClientNo, AuthFault>
    ensures { Authenticates registry.now.clients (option_copied header.entry) params.now result }
{
    match header {
        Some(header) => by_header(alloc, registry, params, header),
        None => by_parameters(registry, params),
    }
}

/// The client that a request authenticates, by the value of its Authorization header or, without one, by its parameters
/// `client_id` and `client_secret` (RFC 6749, section 2.3.1). Beside a header, `client_secret` and the `client_id` of
/// another client are refused. Who is authenticated has sent its identifier and a secret of its own.
pub fn authenticate(
    alloc: Global,
    registry: &Registry,
    header: Option<&[u8]>,
    params: &Params<'_>,
) -> Result<ClientNo, AuthFault>
    ensures value { Authenticates registry.now.clients (option_copied header.entry) params.now result }
    ensures listed { IfOk result (λ number. number ≤ length registry.now.clients) }
    ensures sent { IfOk result (λ number. IsSender registry.now.clients (option_copied header.entry) params.now number) }
{
    by_header_or_parameters(alloc, registry, header, params)
}
