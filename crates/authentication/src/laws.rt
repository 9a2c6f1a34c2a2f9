//! Laws of the definitions.

ghost use Rattle.authentication.specs.Authentication.{HeadersAuthenticate};
ghost use Rattle.clients.specs.RegistryRecord.{RegistryRecord};
ghost use Rattle.clients.specs.RegistryRules.{IsRegistry};

/// Each client of a registry is authenticated by the Basic header of its identifier and its secret, both form-encoded
/// (RFC 6749, section 2.3.1).
#[tactic(auto, using(crate::specs::HeaderLaws::headers_authenticate))]
pub fn headers_authenticate()
    ensures { (rules : RegistryRecord) → IsRegistry rules → HeadersAuthenticate rules.clients }
{}
