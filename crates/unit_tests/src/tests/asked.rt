//! Requests to a server of one registry, and replies to them. Each draw repeats a byte.

use hook_record::{Ask, Kind};

/// Two clients and an owner.
pub(super) const REGISTRY: &[u8] =
    br#"{"access_life":300,"refresh_life":86400,"operator":"op-key","owners":["ann-key"],"scopes":["read","write","admin"],"clients":[{"id":"app","secret":"s3cret","redirects":["https://app.example/cb"],"scope":"read write","grants":["authorization_code","refresh_token"]},{"id":"bot","secret":"b0t","redirects":[],"scope":"read","grants":["client_credentials"]}]}"#;

/// A hook is asked of a code that is exchanged for two scopes.
pub(super) const ASK: Ask = Ask {
    kind: Kind::Code,
    now: 1000,
    client: 1,
    owner: 1,
    asked: 3,
    scope: 3,
    life: 300,
    allowed: 7,
    consented: 0,
    access_limit: 0,
    refresh_limit: 0,
};

/// Ann consents that the application has both of its scopes.
pub(super) const CONSENT: &[u8] =
    b"POST /consent HTTP/1.1\r\nX-Owner-Key: ann-key\r\nContent-Length: 30\r\n\r\nclient_id=app&scope=read+write";

/// She is asked for a code for one of them.
pub(super) const AUTHORIZE: &[u8] =
    b"GET /authorize?response_type=code&client_id=app&redirect_uri=https%3A%2F%2Fapp.example%2Fcb&scope=read&state=xyz&code_challenge=E9Melhoa2OwvFrEMTJguCHaoeK1t8URWbuGJSstw-cM&code_challenge_method=S256 HTTP/1.1\r\nX-Owner-Key: ann-key\r\n\r\n";

/// The application exchanges the code of the draw 1.
pub(super) const EXCHANGE: &[u8] =
    b"POST /token HTTP/1.1\r\nAuthorization: Basic YXBwOnMzY3JldA==\r\nContent-Length: 180\r\n\r\ngrant_type=authorization_code&code=AQEBAQEBAQEBAQEBAQEBAQEBAQEBAQEBAQEBAQEBAQE&redirect_uri=https%3A%2F%2Fapp.example%2Fcb&code_verifier=dBjftJeZ4CVP-mB92K27uhbUJU1p1r_wW1gFWFOEjXk";

/// It asks about the access token of the draw 2.
pub(super) const INTROSPECT: &[u8] =
    b"POST /introspect HTTP/1.1\r\nAuthorization: Basic YXBwOnMzY3JldA==\r\nContent-Length: 49\r\n\r\ntoken=AgICAgICAgICAgICAgICAgICAgICAgICAgICAgICAgI";

/// It refreshes by the token of the draw 3.
pub(super) const REFRESH: &[u8] =
    b"POST /token HTTP/1.1\r\nAuthorization: Basic YXBwOnMzY3JldA==\r\nContent-Length: 82\r\n\r\ngrant_type=refresh_token&refresh_token=AwMDAwMDAwMDAwMDAwMDAwMDAwMDAwMDAwMDAwMDAwM";

/// It refreshes by the token of the draw 5.
pub(super) const REFRESH_AGAIN: &[u8] =
    b"POST /token HTTP/1.1\r\nAuthorization: Basic YXBwOnMzY3JldA==\r\nContent-Length: 82\r\n\r\ngrant_type=refresh_token&refresh_token=BQUFBQUFBQUFBQUFBQUFBQUFBQUFBQUFBQUFBQUFBQU";

/// Two clients ask for tokens of their own.
pub(super) const CLIENT_TOKEN: &[u8] =
    b"POST /token HTTP/1.1\r\nAuthorization: Basic Ym90OmIwdA==\r\nContent-Length: 29\r\n\r\ngrant_type=client_credentials";

pub(super) const OTHER_CLIENT_TOKEN: &[u8] =
    b"POST /token HTTP/1.1\r\nAuthorization: Basic YXBwOnMzY3JldA==\r\nContent-Length: 29\r\n\r\ngrant_type=client_credentials";

/// The operator installs a hook that allows all, and one that denies all.
pub(super) const INSTALL: &[u8] =
    b"POST /hooks?name=h1 HTTP/1.1\r\nX-Operator-Key: op-key\r\nContent-Length: 16\r\n\r\n\xb7\0\0\0\x01\0\0\0\x95\0\0\0\0\0\0\0";

pub(super) const INSTALL_DENIAL: &[u8] =
    b"POST /hooks?name=h2 HTTP/1.1\r\nX-Operator-Key: op-key\r\nContent-Length: 16\r\n\r\n\xb7\0\0\0\0\0\0\0\x95\0\0\0\0\0\0\0";

/// The first is removed, and all are listed.
pub(super) const REMOVE: &[u8] =
    b"POST /hooks/remove HTTP/1.1\r\nX-Operator-Key: op-key\r\nContent-Length: 7\r\n\r\nname=h1";

pub(super) const LIST: &[u8] = b"GET /hooks/list HTTP/1.1\r\nX-Operator-Key: op-key\r\n\r\n";

pub(super) const GET_TOKEN: &[u8] = b"GET /token HTTP/1.1\r\n\r\n";

pub(super) const NOWHERE: &[u8] = b"GET / HTTP/1.1\r\n\r\n";

// What they are answered.
pub(super) const CONSENTED: &[u8] =
    b"HTTP/1.1 200 OK\r\nContent-Type: application/json\r\nCache-Control: no-store\r\nPragma: no-cache\r\nContent-Length: 22\r\n\r\n{\"scope\":\"read write\"}";

pub(super) const CODE: &[u8] =
    b"HTTP/1.1 302 Found\r\nCache-Control: no-store\r\nPragma: no-cache\r\nLocation: https://app.example/cb?code=AQEBAQEBAQEBAQEBAQEBAQEBAQEBAQEBAQEBAQEBAQE&state=xyz\r\nContent-Length: 0\r\n\r\n";

pub(super) const TOKENS: &[u8] =
    b"HTTP/1.1 200 OK\r\nContent-Type: application/json\r\nCache-Control: no-store\r\nPragma: no-cache\r\nContent-Length: 178\r\n\r\n{\"access_token\":\"AgICAgICAgICAgICAgICAgICAgICAgICAgICAgICAgI\",\"expires_in\":300,\"refresh_token\":\"AwMDAwMDAwMDAwMDAwMDAwMDAwMDAwMDAwMDAwMDAwM\",\"scope\":\"read\",\"token_type\":\"Bearer\"}";

pub(super) const TOKENS_FOR_A_SECOND: &[u8] =
    b"HTTP/1.1 200 OK\r\nContent-Type: application/json\r\nCache-Control: no-store\r\nPragma: no-cache\r\nContent-Length: 176\r\n\r\n{\"access_token\":\"AgICAgICAgICAgICAgICAgICAgICAgICAgICAgICAgI\",\"expires_in\":1,\"refresh_token\":\"AwMDAwMDAwMDAwMDAwMDAwMDAwMDAwMDAwMDAwMDAwM\",\"scope\":\"read\",\"token_type\":\"Bearer\"}";

pub(super) const REFRESHED: &[u8] =
    b"HTTP/1.1 200 OK\r\nContent-Type: application/json\r\nCache-Control: no-store\r\nPragma: no-cache\r\nContent-Length: 178\r\n\r\n{\"access_token\":\"BAQEBAQEBAQEBAQEBAQEBAQEBAQEBAQEBAQEBAQEBAQ\",\"expires_in\":300,\"refresh_token\":\"BQUFBQUFBQUFBQUFBQUFBQUFBQUFBQUFBQUFBQUFBQU\",\"scope\":\"read\",\"token_type\":\"Bearer\"}";

pub(super) const ACTIVE: &[u8] =
    b"HTTP/1.1 200 OK\r\nContent-Type: application/json\r\nCache-Control: no-store\r\nPragma: no-cache\r\nContent-Length: 92\r\n\r\n{\"active\":true,\"client_id\":\"app\",\"exp\":1300,\"iat\":1000,\"scope\":\"read\",\"token_type\":\"Bearer\"}";

pub(super) const INACTIVE: &[u8] =
    b"HTTP/1.1 200 OK\r\nContent-Type: application/json\r\nCache-Control: no-store\r\nPragma: no-cache\r\nContent-Length: 16\r\n\r\n{\"active\":false}";

pub(super) const INVALID_GRANT: &[u8] =
    b"HTTP/1.1 400 Bad Request\r\nContent-Type: application/json\r\nCache-Control: no-store\r\nPragma: no-cache\r\nContent-Length: 25\r\n\r\n{\"error\":\"invalid_grant\"}";

pub(super) const INVALID_SCOPE: &[u8] =
    b"HTTP/1.1 400 Bad Request\r\nContent-Type: application/json\r\nCache-Control: no-store\r\nPragma: no-cache\r\nContent-Length: 25\r\n\r\n{\"error\":\"invalid_scope\"}";

pub(super) const UNAUTHORIZED: &[u8] =
    b"HTTP/1.1 400 Bad Request\r\nContent-Type: application/json\r\nCache-Control: no-store\r\nPragma: no-cache\r\nContent-Length: 31\r\n\r\n{\"error\":\"unauthorized_client\"}";

pub(super) const NAME_TAKEN: &[u8] =
    b"HTTP/1.1 400 Bad Request\r\nContent-Type: application/json\r\nCache-Control: no-store\r\nPragma: no-cache\r\nContent-Length: 45\r\n\r\n{\"detail\":\"NameTaken\",\"error\":\"hook_refused\"}";

pub(super) const INSTALLED: &[u8] =
    b"HTTP/1.1 200 OK\r\nContent-Type: application/json\r\nCache-Control: no-store\r\nPragma: no-cache\r\nContent-Length: 13\r\n\r\n{\"name\":\"h1\"}";

pub(super) const DENIAL_INSTALLED: &[u8] =
    b"HTTP/1.1 200 OK\r\nContent-Type: application/json\r\nCache-Control: no-store\r\nPragma: no-cache\r\nContent-Length: 13\r\n\r\n{\"name\":\"h2\"}";

pub(super) const UNKNOWN_HOOK: &[u8] =
    b"HTTP/1.1 400 Bad Request\r\nContent-Type: application/json\r\nCache-Control: no-store\r\nPragma: no-cache\r\nContent-Length: 43\r\n\r\n{\"detail\":\"Unknown\",\"error\":\"hook_refused\"}";

pub(super) const NO_HOOKS: &[u8] =
    b"HTTP/1.1 200 OK\r\nContent-Type: application/json\r\nCache-Control: no-store\r\nPragma: no-cache\r\nContent-Length: 12\r\n\r\n{\"hooks\":[]}";

pub(super) const UNAVAILABLE: &[u8] =
    b"HTTP/1.1 503 Service Unavailable\r\nContent-Length: 0\r\n\r\n";

pub(super) const NOT_ALLOWED: &[u8] =
    b"HTTP/1.1 405 Method Not Allowed\r\nContent-Length: 0\r\n\r\n";

pub(super) const NOT_FOUND: &[u8] = b"HTTP/1.1 404 Not Found\r\nContent-Length: 0\r\n\r\n";
