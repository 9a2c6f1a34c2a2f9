//! Names that have their places, and what clients may be allowed.

ghost use Rattle.std.specs.Prelude.{◌≡◌, map, option_copied};
ghost use Rattle.rules_codec.specs.Facts.{client_fact};
ghost use Rattle.rules_beside.specs.Places.{client_names, first_moved, first_narrowed};

use clients::ClientBounds;

/// The first of the names that does not have its place now.
pub fn moved_scope<'b>(told: &[&'b str], now: &[&str]) -> Option<&'b str>
    ensures { option_copied result ≡ first_moved (map (λ s. s.now) told.now) (map (λ s. s.now) now.now) }
{
    let mut rest = told;
    let mut beside = now;
    while let [name, names @ ..] = rest {
        match beside {
            [other, others @ ..] if name == other => {
                rest = names;
                beside = others;
            }
            _ => return Some(name),
        }
    }
    None
}

/// The first of the clients whose name does not have its place now.
pub fn moved_client<'b>(told: &[ClientBounds<'b>], now: &[ClientBounds]) -> Option<&'b str>
    ensures { option_copied result ≡ first_moved (client_names (map client_fact told.now)) (client_names (map client_fact now.now)) }
{
    let mut rest = told;
    let mut beside = now;
    while let [client, clients @ ..] = rest {
        match beside {
            [other, others @ ..] if client.name == other.name => {
                rest = clients;
                beside = others;
            }
            _ => return Some(client.name),
        }
    }
    None
}

/// The first of the clients that may not be allowed now all that it was.
pub fn narrowed_client<'b>(told: &[ClientBounds<'b>], now: &[ClientBounds]) -> Option<&'b str>
    ensures { option_copied result ≡ first_narrowed (map client_fact told.now) (map client_fact now.now) }
{
    let mut rest = told;
    let mut beside = now;
    while let [client, clients @ ..] = rest {
        let [other, others @ ..] = beside else {
            return None;
        };
        if !client.allowed.is_within(other.allowed) {
            return Some(client.name);
        }
        rest = clients;
        beside = others;
    }
    None
}
