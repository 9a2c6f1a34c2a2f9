//! The scope names of a registry, and the scope of a client (RFC 6749, section 3.3).

ghost use Rattle.std.specs.Prelude.{◌≡◌, ◌<◌, ◌⊎◌, [], length, map, Ok, Err, OnOk, IfOk, IfErr};
ghost use Rattle.serde_json.specs.View.{view, items_view};
ghost use Rattle.registry_json.specs.Faults.{GivesUnless};
ghost use Rattle.clients.specs.Scopes.{name_after, scopes_after, scope_of};
ghost use Rattle.registry_json.specs.declared.fault.Refusal.TheVariants as refusal;

use consent::ScopeSet;
use params::Catalogue;
use registry_json::fault::{ConfigFault, Refusal, located};
use registry_json::json::text;
use registry_json::spot::Spot;
use serde_json::Value;
use std::alloc::Global;

// Takes a further scope name.
fn push_name(catalogue: &mut Catalogue, value: &Value) -> Result<(), ConfigFault>
    ensures ok { OnOk result (name_after catalogue.old (view value.now) ≡ Ok catalogue.new) }
    ensures err { IfErr result (λ fault. (fault ≡ ConfigFault.Memory) ⊎ (name_after catalogue.old (view value.now) ≡ Err fault)) }
{
    catalogue.push(text(value)?)?;
    Ok(())
}

// The catalogue of these scope names.
pub(crate) fn scope_list(alloc: Global, list: &[Value]) -> Result<Catalogue, Refusal>
    ensures { GivesUnless refusal.Memory (0 < length list.now) result (scopes_after [] (items_view list.now)) }
{
    let mut catalogue = Catalogue::new(alloc);
    let mut number = 0;
    for value in list {
        located(Spot::Scopes(Some(number)), push_name(&mut catalogue, value))?;
        number += 1;
    }
    Ok(catalogue)
}

// The catalogue of these names.
pub(crate) fn catalogue_of(alloc: Global, names: &[&str]) -> Result<Catalogue, ConfigFault>
    ensures { IfOk result (λ catalogue. catalogue ≡ map (λ s. s.now) names.now) }
{
    let mut catalogue = Catalogue::new(alloc);
    for name in names {
        catalogue.push(name)?;
    }
    Ok(catalogue)
}

// The mask of a scope text.
pub(crate) fn scope(catalogue: &Catalogue, value: &Value) -> Result<ScopeSet, ConfigFault>
    ensures { result ≡ scope_of catalogue.now (view value.now) }
{
    catalogue
        .scope_mask(text(value)?)
        .ok_or(ConfigFault::BadScope)
}
