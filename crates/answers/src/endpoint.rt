//! The endpoints: their paths, their methods, and how their requests are counted.
ghost use Rattle.std.specs.Prelude.{◌≡◌, ◌<◌, Some, bytes_eq, find, option_copied, slice_get};
ghost use Rattle.answers.specs.Paths.{endpoint_at, method_at, name_at, path_at, place_of};
ghost use Rattle.answers.specs.declared.endpoint.TheConstants.{ENDPOINTS};

/// What a path is for.
#[derive(Clone, Copy, Debug, PartialEq, Eq)]
pub enum Endpoint {
    Authorize,
    GiveConsent,
    IssueToken,
    RevokeToken,
    Introspect,
    InstallHook,
    RemoveHook,
    EndOwner,
    /// The document is told, by reading alone.
    Read(Document),
}

/// What is told of a server, by GET.
#[derive(Clone, Copy, Debug, PartialEq, Eq)]
pub enum Document {
    /// The names of its hooks.
    Hooks,
}

/// How many endpoints there are.
pub const ENDPOINT_COUNT: usize = 9;

/// All endpoints, each at its place.
pub const ENDPOINTS: [Endpoint; ENDPOINT_COUNT] = [
    Endpoint::Authorize,
    Endpoint::GiveConsent,
    Endpoint::IssueToken,
    Endpoint::RevokeToken,
    Endpoint::Introspect,
    Endpoint::InstallHook,
    Endpoint::RemoveHook,
    Endpoint::EndOwner,
    Endpoint::Read(Document::Hooks),
];

impl Endpoint {
    /// Its place among all.
    pub fn place(self) -> usize
        ensures value { result ≡ place_of self }
        ensures there { slice_get ENDPOINTS result ≡ Some self }
        ensures inside { result < 9 }
    {
        match self {
            Endpoint::Authorize => 0,
            Endpoint::GiveConsent => 1,
            Endpoint::IssueToken => 2,
            Endpoint::RevokeToken => 3,
            Endpoint::Introspect => 4,
            Endpoint::InstallHook => 5,
            Endpoint::RemoveHook => 6,
            Endpoint::EndOwner => 7,
            Endpoint::Read(Document::Hooks) => 8,
        }
    }

    /// Its path.
    pub fn path(self) -> &'static str
        ensures { result.now ≡ path_at self }
    {
        match self {
            Endpoint::Authorize => "/authorize",
            Endpoint::GiveConsent => "/consent",
            Endpoint::IssueToken => "/token",
            Endpoint::RevokeToken => "/revoke",
            Endpoint::Introspect => "/introspect",
            Endpoint::InstallHook => "/hooks",
            Endpoint::RemoveHook => "/hooks/remove",
            Endpoint::EndOwner => "/owners/end",
            Endpoint::Read(Document::Hooks) => "/hooks/list",
        }
    }

    /// The name under which its requests are counted.
    pub fn name(self) -> &'static str
        ensures { result.now ≡ name_at self }
    {
        match self {
            Endpoint::Authorize => "authorize",
            Endpoint::GiveConsent => "consent",
            Endpoint::IssueToken => "token",
            Endpoint::RevokeToken => "revoke",
            Endpoint::Introspect => "introspect",
            Endpoint::InstallHook => "hooks",
            Endpoint::RemoveHook => "hooks_remove",
            Endpoint::EndOwner => "owners_end",
            Endpoint::Read(Document::Hooks) => "hooks_list",
        }
    }

    /// The one method that it answers.
    pub fn method(self) -> &'static [u8]
        ensures { result.now ≡ method_at self }
    {
        match self {
            Endpoint::Authorize | Endpoint::Read(_) => b"GET".as_slice(),
            _ => b"POST".as_slice(),
        }
    }

    /// The endpoint of a path, byte by byte.
    pub fn at(path: &[u8]) -> Option<Endpoint>
        ensures { result ≡ endpoint_at path.now }
    {
        among(path, &ENDPOINTS).copied()
    }
}

// The first of some endpoints that has the path.
fn among<'a>(path: &[u8], endpoints: &'a [Endpoint]) -> Option<&'a Endpoint>
    ensures { option_copied result ≡ find (λ endpoint. bytes_eq path.now (path_at endpoint)) endpoints.now }
{
    endpoints
        .iter()
        .find(|endpoint| path == endpoint.path().as_bytes())
}
