//! The names that members have which mean something.

ghost use Rattle.std.specs.Prelude.{◌≡◌, option_copied};
ghost use Rattle.registry_warnings.specs.Names.{is_of_owner, is_of_key, is_of_limits, is_known_in};

use clients::is_of_client;

// The members of an owner.
fn is_of_owner(name: &str) -> bool
    ensures { result ≡ is_of_owner name.now }
{
    name == "key" || name == "sub" || name == "number" || name == "sha256"
}

// The member of an object that stands for a key.
pub(crate) fn is_of_key(name: &str) -> bool
    ensures { result ≡ is_of_key name.now }
{
    name == "sha256"
}

// The members of limits.
fn is_of_limits(name: &str) -> bool
    ensures { result ≡ is_of_limits name.now }
{
    name == "records" || name == "consents"
}

// Whether the name means something in an object in the registry's member of this name.
pub(crate) fn is_known_in(place: Option<&str>, name: &str) -> bool
    ensures { result ≡ is_known_in (option_copied place.entry) name.now }
{
    let Some(place) = place else {
        return true;
    };
    if place == "clients" {
        is_of_client(name)
    } else if place == "owners" {
        is_of_owner(name)
    } else if place == "operator" || place == "gateway" {
        is_of_key(name)
    } else if place == "limits" {
        is_of_limits(name)
    } else {
        true
    }
}
